//! Which chains of sources come back.
ghost use Rattle.yt_name_faults.specs.Laws.{CyclesAreTold};

/// A port's chain of sources comes back, which is the fault of a cycle, exactly where, following sources from it, a port is
/// reached that was in the chain before.
pub fn cycles_are_told()
    ensures { CyclesAreTold }
{}
