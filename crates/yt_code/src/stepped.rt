//! Whether a tick was the last.

/// What a step answers.
#[derive(Clone, Copy, Debug, PartialEq, Eq)]
pub enum Stepped {
    /// The handler goes on.
    Going,
    /// This was the handler's last tick.
    Ended,
}
