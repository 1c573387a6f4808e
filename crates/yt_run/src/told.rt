//! What a run tells.

use yt_log::Log;
use yt_serial::Outs;

/// The schedule of a run and what it showed.
#[derive(Debug, Drop)]
pub struct Told {
    pub log: Log,
    pub outs: Outs,
}
