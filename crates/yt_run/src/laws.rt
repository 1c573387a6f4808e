//! Laws of the texts of runs.

ghost use Rattle.yt_run.specs.Laws.{FaithfulTexts};

/// What a text has to satisfy to be the run's of a graph on a trace.
pub fn faithful_texts()
    ensures { FaithfulTexts }
{}
