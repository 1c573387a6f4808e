//! The limits of code, which definitions cite. How many locals there can be, `yt_graph` says.

/// How many numbers the stack can hold.
pub const STACK_ROOM: usize = 40;

/// How many loops can be open.
pub const MOST_OPEN_LOOPS: usize = 8;
