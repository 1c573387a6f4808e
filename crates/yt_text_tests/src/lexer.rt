//! Tokens of texts.

use crate::texts::front;
use std::process::Abort;
use std::test::Fail;
use yt_graph::Place;
use yt_lexer::TokenKind::{Key, Number, Symbol, Word};
use yt_lexer::{LexFault, TokenKind, lex};

/// A token's kind, the bytes before it and before its end, and its line and column.
type Found = (TokenKind, u32, u32, u32, u32);

/// Texts and their tokens.
const TOKENS: &[(&str, &[Found])] = &[
    ("", &[]),
    ("x", &[(Word, 0, 1, 1, 1)]),
    ("_Az09", &[(Word, 0, 5, 1, 1)]),
    ("within", &[(Key, 0, 6, 1, 1)]),
    ("withins", &[(Word, 0, 7, 1, 1)]),
    ("In", &[(Word, 0, 2, 1, 1)]),
    ("12ab", &[(Number(12), 0, 2, 1, 1), (Word, 2, 4, 1, 3)]),
    ("007", &[(Number(7), 0, 3, 1, 1)]),
    ("9223372036854775807", &[(Number(i64::MAX), 0, 19, 1, 1)]),
    (
        "00000000000000000000000000000000000009223372036854775807",
        &[(Number(i64::MAX), 0, 56, 1, 1)],
    ),
    (
        "<=<===!=",
        &[
            (Symbol, 0, 2, 1, 1),
            (Symbol, 2, 4, 1, 3),
            (Symbol, 4, 6, 1, 5),
            (Symbol, 6, 8, 1, 7),
        ],
    ),
    (
        ">-=",
        &[
            (Symbol, 0, 1, 1, 1),
            (Symbol, 1, 2, 1, 2),
            (Symbol, 2, 3, 1, 3),
        ],
    ),
    ("nnnnnnnnnnnnnnnnnnnnnnnnnnnnnnnn", &[(Word, 0, 32, 1, 1)]),
    ("a#b\nc", &[(Word, 0, 1, 1, 1), (Word, 4, 5, 2, 1)]),
    ("# a ! $", &[]),
    ("#a\rb\n\r\n\tc", &[(Word, 8, 9, 3, 2)]),
    ("##\n#\n", &[]),
    (" \t\r\n", &[]),
];

/// Checks the tokens of each text.
fn judge_tokens(rt: &(impl Abort + AllocGlobal), rows: &[(&str, &[Found])]) -> Result<(), Fail> {
    for (text, expected) in rows {
        let mut told = Vec::new(rt.alloc());
        let tokens = lex(rt.alloc(), front(text)).ok().ok_or("a fault")?;
        for token in tokens.as_slice() {
            told.push((
                token.kind,
                token.from,
                token.to,
                token.place.line,
                token.place.col,
            ))?;
        }
        assert_eq!(rt; told.as_slice(), *expected, "at {text}");
    }
    Ok(())
}

#[test]
fn texts_have_their_tokens(rt: HostRuntime) -> Result<(), Fail> {
    judge_tokens(&rt, TOKENS)
}

/// Texts and their first faults.
const FAULTS: &[(&str, LexFault)] = &[
    ("!", LexFault::BadByte(Place { line: 1, col: 1 })),
    ("a != b ! c", LexFault::BadByte(Place { line: 1, col: 8 })),
    ("a\n\n  $", LexFault::BadByte(Place { line: 3, col: 3 })),
    (
        "#\u{e9}\n\u{e9}",
        LexFault::BadByte(Place { line: 2, col: 1 }),
    ),
    ("a\u{0}", LexFault::BadByte(Place { line: 1, col: 2 })),
    (
        "nnnnnnnnnnnnnnnnnnnnnnnnnnnnnnnnn",
        LexFault::LongName(Place { line: 1, col: 1 }),
    ),
    (
        "1 nnnnnnnnnnnnnnnnnnnnnnnnnnnnnnnnn$ 9223372036854775808",
        LexFault::LongName(Place { line: 1, col: 3 }),
    ),
    (
        "9223372036854775808",
        LexFault::BigNumber(Place { line: 1, col: 1 }),
    ),
    (
        "-99999999999999999999999999999999999999999x$",
        LexFault::BigNumber(Place { line: 1, col: 2 }),
    ),
    (
        "$ 9223372036854775808",
        LexFault::BadByte(Place { line: 1, col: 1 }),
    ),
];

/// Checks the first fault of each text.
fn judge_faults(rt: &(impl Abort + AllocGlobal), rows: &[(&str, LexFault)]) -> Result<(), Fail> {
    for (text, fault) in rows {
        assert_eq!(rt;
            lex(rt.alloc(), front(text)).err(),
            Some(*fault),
            "at {text}"
        );
    }
    Ok(())
}

#[test]
fn texts_have_their_first_fault(rt: HostRuntime) -> Result<(), Fail> {
    judge_faults(&rt, FAULTS)
}

#[test]
fn a_long_text_has_its_tokens(rt: HostRuntime) -> Result<(), Fail> {
    let alloc = rt.alloc();
    let mut text = vec![in alloc; b' '; 1_100_000]?;
    text.push(b'x')?;
    let tokens = lex(alloc, &text).ok().ok_or("a fault")?;
    assert_eq!(rt; tokens.len(), 1);
    let token = tokens.as_slice().first().ok_or("no token")?;
    assert_eq!(rt; (token.from, token.to), (1_100_000, 1_100_001));
    assert_eq!(rt;
        token.place,
        Place {
            line: 1,
            col: 1_100_001
        }
    );
    Ok(())
}
