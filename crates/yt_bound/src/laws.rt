//! Laws of the definitions.

ghost use Rattle.yt_bound.specs.Laws.{RunsAreBounded};
ghost use Rattle.yt_bound.specs.Worked.{WorkedBounds};

/// A run has no more jobs and lines than its bound, nor has any part of it.
pub fn runs_are_bounded()
    ensures { RunsAreBounded }
{}

/// The bounds of worked traces of a graph.
pub fn worked_bounds()
    ensures { WorkedBounds }
{}
