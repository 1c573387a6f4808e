//! How a command ends.
ghost use Rattle.std.specs.Prelude.{◌≡◌};
ghost use Rattle.yt_answer.specs.Code.{code_of};

/// How a command ended, with the exit status of the process.
#[derive(Clone, Copy, Debug, PartialEq, Eq)]
pub enum Status {
    /// The defined answer was written.
    Done,
    /// The words are no listed form.
    Usage,
    /// The graph's or the set's text, names, costs, rates or hyperperiod is refused.
    Graph,
    /// The task set doesn't fit; the arrivals that show it were written.
    Overload,
    /// The trace or the plan is refused.
    Trace,
    /// A file could not be read. Nothing was written.
    ReadFault,
    /// A write failed. What was written is a front of the answer's text.
    WriteFault,
    /// A job misses its deadline.
    Missed,
    /// Memory ran out before the first write. Nothing was written.
    NoMemory,
    /// A file or a pattern is too long.
    Long,
    /// The words, the graph or the trace have a form that isn't built yet.
    NotYet,
}

impl Status {
    /// The exit status of the process.
    pub fn code(&self) -> u8
        ensures { result ≡ code_of self.now }
    {
        match self {
            Status::Done => 0,
            Status::Usage => 2,
            Status::Graph => 3,
            Status::Overload => 4,
            Status::Trace => 5,
            Status::ReadFault => 6,
            Status::WriteFault => 7,
            Status::Missed => 8,
            Status::NoMemory => 9,
            Status::Long => 10,
            Status::NotYet => 11,
        }
    }
}
