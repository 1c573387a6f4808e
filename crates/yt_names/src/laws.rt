//! What every graph without a fault keeps to.
ghost use Rattle.yt_names.specs.Laws.{ResolvedIsWellFormed};

/// The graph of a tree without a fault is well formed, where the tree is one that a text can have and the operators are
/// within their limits.
pub fn resolved_is_well_formed()
    ensures { ResolvedIsWellFormed }
{}
