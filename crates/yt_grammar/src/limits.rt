//! How deep a tree may be, which definitions have in `specs/Limits` of `yt_graph`.

/// How deep an expression of a statement is at most: a number or a name has depth 1.
pub const MOST_EXPR_DEPTH: u32 = 32;

/// How many blocks stand in each other at most, with a handler's own.
pub const MOST_BLOCK_DEPTH: u32 = 8;
