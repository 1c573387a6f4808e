//! What names of a handler stand for.

/// What a name stands for.
#[derive(Clone, Copy)]
pub(crate) enum Meant {
    /// The local at this place.
    Local(u32),
    /// The variable at this place.
    Var(u32),
    /// Nothing.
    Nothing,
}
