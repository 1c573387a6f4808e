//! What is found of words and files.
ghost use Rattle.std.specs.Prelude.{◌≡◌};
ghost use Rattle.yt_answer.specs.Code.{status_of};

use crate::status::Status;

/// What is found of the words and of what the files hold. Each comes with a text.
#[derive(Clone, Copy, Debug, PartialEq, Eq)]
pub enum Verdict {
    /// What was asked is in order: the text is the defined answer.
    Done,
    /// The words are no listed form.
    Usage,
    /// The graph's or the set's text, names, costs, rates or hyperperiod is refused.
    Graph,
    /// The task set doesn't fit; the text has the arrivals that show it.
    Overload,
    /// The trace or the plan is refused.
    Trace,
    /// A job misses its deadline.
    Missed,
    /// A file or a pattern is too long.
    Long,
    /// The words, the graph or the trace have a form that isn't built yet.
    NotYet,
}

impl From<Verdict> for Status {
    ghost from_gives = { λ verdict status. status ≡ status_of verdict };

    fn from(verdict: Verdict) -> Self {
        match verdict {
            Verdict::Done => Status::Done,
            Verdict::Usage => Status::Usage,
            Verdict::Graph => Status::Graph,
            Verdict::Overload => Status::Overload,
            Verdict::Trace => Status::Trace,
            Verdict::Missed => Status::Missed,
            Verdict::Long => Status::Long,
            Verdict::NotYet => Status::NotYet,
        }
    }
}
