//! What the definitions mean, as laws.
ghost use Rattle.yt_set.specs.Hyperperiod.{HyperperiodIsLeast};
ghost use Rattle.yt_set.specs.Worked.{WorkedLoads};

/// The hyperperiod of a set is the least common multiple of its periods.
pub fn hyperperiod_is_least()
    ensures { HyperperiodIsLeast }
{}

/// The loads of two worked sets: one takes the whole processor, the other a tick more than there are.
pub fn worked_loads()
    ensures { WorkedLoads }
{}
