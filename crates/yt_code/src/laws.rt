//! Laws of the definitions.

ghost use Rattle.yt_code.specs.Ready.{NeverStuck};

/// A machine that was begun with valid code and has not ended is never stuck: it makes a tick, keeps the number of
/// variables, and is as ready as before unless the handler has ended.
pub fn valid_code_is_never_stuck()
    ensures { NeverStuck }
{}
