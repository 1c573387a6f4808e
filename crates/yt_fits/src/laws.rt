//! What the definitions mean, as laws.
ghost use Rattle.yt_fits.specs.Worked.{WorkedIntervals};

/// The ticks that are asked for in two spans of a worked set: as many as the one has, and more than the other has.
pub fn worked_intervals()
    ensures { WorkedIntervals }
{}
