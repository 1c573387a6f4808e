//! Laws of the handlers of a graph in a run.

ghost use Rattle.yt_body_laws.specs.Laws.{BodiesHaveLeft, BodiesIdle, BodiesStart, BodiesTick};
ghost use Rattle.yt_body_laws.specs.Placing.{BodiesPlace, BodiesRest, BodiesTell};
ghost use Rattle.yt_body_laws.specs.Reading.{BodiesRead};
ghost use Rattle.yt_body_laws.specs.Running.{BodiesRun};

/// Before the first message the handlers carry the run before its first tick.
pub fn bodies_start()
    ensures { BodiesStart }
{}

/// What is left of a job is what the run's handling of it has left.
pub fn bodies_have_left()
    ensures { BodiesHaveLeft }
{}

/// Idle ticks change nothing of what handlers carry.
pub fn bodies_idle()
    ensures { BodiesIdle }
{}

/// A tick of a job, its first or a later one, is one of the run.
pub fn bodies_tick()
    ensures { BodiesTick }
{}

/// Messages come to ports and outputs, one after another: each finds its port free, and is the one that comes in the run; and where none
/// is left all have come.
pub fn bodies_place()
    ensures { BodiesPlace }
{}

/// The jobs of the messages that come to ports are those that are released in this tick, and the lines of those that come to outputs are
/// those that are shown in it, in order.
pub fn bodies_tell()
    ensures { BodiesTell }
{}

/// What waits and what is left of the trace say which message comes next, and when all have come and are handled.
pub fn bodies_rest()
    ensures { BodiesRest }
{}

/// A trace is read message by message, and each is put at the ports that its input feeds, one after another; where the next one comes
/// later, all that come now have come.
pub fn bodies_read()
    ensures { BodiesRead }
{}

/// An executive and the handlers as its body go through a run: what comes at a tick is placed, released and told, and a job has the tick,
/// or many idle ticks go by; where nothing is left to come, the run is the one that is promised.
pub fn bodies_run()
    ensures { BodiesRun }
{}
