//! From tokens to the syntax tree that they spell.
//!
//! What they spell is said in `yt_grammar`; trees are printed by `yt_printer`, which this crate doesn't know. It knows nothing of
//! what names mean, of costs or of schedules. Its contract: [`parse`] gives the one tree that the tokens spell, or the place of
//! the first token that no tree goes on with.
#![tactic(auto)]

mod cursor;
mod deep;
mod parse_expr;
mod parse_item;
mod parse_port;
mod parse_stmt;
mod parser;

pub use parser::{ParseFault, parse};
