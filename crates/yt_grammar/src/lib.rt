//! The grammar of graphs: what their texts are made of, which tokens spell which syntax tree, how a tree is laid out in its
//! canonical text, and how the front of a list of tokens is read; with the laws of these.
//!
//! Reading (`yt_parser`) and printing (`yt_printer`) stand on it and do not know each other. This crate knows nothing of
//! what names mean, of costs or of schedules, and it neither reads nor prints. Its contract: no tokens spell two trees
//! ([`one_tree`]), and [`ast_ok`] tells the trees that some tokens spell, each of which can be written
//! ([`spelled_is_writable`]).
#![tactic(auto)]

mod grammar_laws;
mod limits;
mod ranks;
mod sign;
mod writable;

pub use grammar_laws::{keywords_are_reserved, one_tree, spelled_is_writable};
pub use limits::{MOST_BLOCK_DEPTH, MOST_EXPR_DEPTH};
pub use ranks::{COMPARISON, LOOSEST, op_rank, right_rank};
pub use sign::{Keyword, Mark};
pub use writable::ast_ok;
