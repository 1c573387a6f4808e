//! From the text of a graph to its tree, or to the answer to a text without one.
ghost use Rattle.std.specs.Prelude.{◌≤◌, IfOk, length};
ghost use Rattle.yt_base.specs.Limits.{most_text_bytes};
ghost use Rattle.yt_admit.specs.Admissions.{IsReadingOf};

use crate::calls::has_call;
use crate::lines::{lex_line, syntax_line};
use std::alloc::{AllocError, Global};
use yt_answer::{Answer, not_yet};
use yt_graph::Ast;
use yt_lexer::lex;
use yt_parser::{ParseFault, parse};

/// What reading a graph's text gives.
#[derive(Drop)]
pub enum Reading {
    /// The text's tree, which calls no operator.
    Tree(Ast),
    /// The answer: the text has no tree, or its tree calls an operator, which isn't built yet.
    Unread(Answer),
}

/// The tree of a graph's text, or the answer to a text without a tree that can be judged. `Err` comes where memory ran out.
pub fn read_graph(alloc: Global, bytes: &[u8]) -> Result<Reading, AllocError>
    requires { length bytes.now ≤ most_text_bytes }
    ensures { IfOk result (λ reading. IsReadingOf bytes.now reading) }
{
    let tokens = match lex(alloc, bytes) {
        Ok(tokens) => tokens,
        Err(fault) => return Ok(Reading::Unread(Answer::refused(lex_line(alloc, fault)?))),
    };
    match parse(alloc, bytes, &tokens) {
        Ok(ast) => {
            if has_call(&ast) {
                return Ok(Reading::Unread(not_yet(alloc)?));
            }
            Ok(Reading::Tree(ast))
        }
        Err(ParseFault::Syntax(place)) => {
            Ok(Reading::Unread(Answer::refused(syntax_line(alloc, place)?)))
        }
        Err(ParseFault::Memory) => Err(AllocError),
    }
}
