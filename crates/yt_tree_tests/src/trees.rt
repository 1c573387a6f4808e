//! Trees that several tests use.

use std::alloc::{AllocError, Global};
use std::test::Fail;
use yt_graph::{Ast, Num, Place, Word};
use yt_lexer::lex;
use yt_list::Name;
use yt_parser::parse;

/// The tree of a text without a fault, cut off where it is long.
pub(crate) fn tree_of(alloc: Global, text: &str) -> Result<Ast, Fail> {
    let bytes = text.as_bytes();
    let front = &bytes[..bytes.len().min(4000)];
    let Ok(tokens) = lex(alloc, front) else {
        return Err("a fault of tokens".into());
    };
    match parse(alloc, front, &tokens) {
        Ok(ast) => Ok(ast),
        Err(_) => Err("a fault of syntax".into()),
    }
}

/// A word, where its place says nothing.
pub(crate) fn word(alloc: Global, text: &str) -> Result<Word, AllocError> {
    Ok(Word {
        text: Name::from_vec(text.as_bytes().to_vec(alloc)?),
        place: Place { line: 1, col: 1 },
    })
}

/// A number, where its place says nothing.
pub(crate) fn num(value: i64) -> Num {
    Num {
        value,
        place: Place { line: 1, col: 1 },
    }
}
