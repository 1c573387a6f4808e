//! Ports.

/// What callers' conditions say of a port; no code reads it.
#[derive(Clone, Copy, Debug, PartialEq, Eq)]
pub struct PortJob {
    /// Whether the port's message is in handling.
    pub in_handling: bool,
    /// The number of the port's last closed job, 0 where none was closed.
    pub number: u32,
    /// The tick at which that job arrived.
    pub arrival: u64,
}
