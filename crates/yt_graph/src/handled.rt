//! What the handling of a message leaves.

use yt_list::{Items, Vals};

/// One message that a handler sent.
#[derive(Debug, Drop)]
pub struct SendItem {
    /// The number of the port's out, from 1.
    pub out: u32,
    /// The numbers of the message.
    pub values: Vals,
}

/// Messages in the order in which they were sent.
pub type Sends = Items<SendItem>;

/// One write of a variable.
#[derive(Clone, Copy, Debug, PartialEq, Eq)]
pub struct Write {
    /// The tick of the write, where 0 is the first of the handling.
    pub offset: u64,
    /// The place of the variable, from 0.
    pub variable: u32,
    /// The variable's new value.
    pub value: i64,
}
