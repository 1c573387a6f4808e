//! The tokens of a graph's text, with their kinds, spans and places; or the first fault of the text.
//!
//! This crate knows neither the grammar that tokens are put together by nor what a name means. Its contract: [`lex`] answers
//! the one list of tokens that the bytes of the text have, or the text's first fault.
#![tactic(auto)]

mod blanks;
mod first;
mod lexing;
mod places;
mod token;

pub use lexing::lex;
pub use places::end_place;
pub use token::{LexFault, Token, TokenKind, Tokens};
