//! Laws of the definitions.

ghost use Rattle.yt_graph.specs.Cost.{SendsWithinGreatest, TicksWithinCost};

/// Handling a message never takes more ticks than the port's greatest cost.
pub fn ticks_within_cost()
    ensures { TicksWithinCost }
{}

/// Handling a message never sends more on an out than the port's greatest number there.
pub fn sends_within_greatest()
    ensures { SendsWithinGreatest }
{}
