//! The laws by which a run goes.

ghost use Rattle.yt_runner.specs.Inside.Laws.{HandlersGoOn};

use yt_body_laws::{bodies_place, bodies_read, bodies_run};

/// How handlers and an executive go through a run: how the trace is read, how messages come, and how each tick goes.
pub(crate) fn handlers_go_on()
    ensures { HandlersGoOn }
{
    bodies_read();
    bodies_place();
    bodies_run();
}
