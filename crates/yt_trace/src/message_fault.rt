//! What is wrong with a message's line.

/// What is wrong with a message's line. Of several faults the first in this order counts.
#[derive(Clone, Copy, Debug, PartialEq, Eq, Drop)]
pub enum MessageFault {
    /// The line has fewer than two fields, a time that isn't digits, or a value that is no number of 64 bits.
    Form,
    /// No input has this name.
    Unknown,
    /// The line has another number of values than the input's messages.
    Width,
    /// The message comes after tick 4,000,000.
    Late,
    /// The message comes before the one of the line before.
    Order,
    /// The message comes within a period of its input's last one. The number is the least tick at which it may.
    Soon(u64),
    /// There are 200,000 messages before this one.
    Many,
}
