//! What has the tasks that are judged, and which file has a line at fault.
ghost use Rattle.std.specs.Prelude.{◌≡◌};
ghost use Rattle.yt_fitting.specs.FaultLines.{file_word};
ghost use Rattle.yt_fitting.specs.TaskText.{kind_word};

/// What has the tasks that are judged.
#[derive(Clone, Copy, Debug, PartialEq, Eq)]
pub enum Kind {
    /// A graph, of whose ports each is a task.
    Graph,
    /// A set.
    Set,
}

impl Kind {
    /// The word with which a line begins that refuses it.
    pub(crate) fn word(self) -> &'static [u8]
        ensures { result.now ≡ kind_word self }
    {
        match self {
            Kind::Graph => b"graph",
            Kind::Set => b"set",
        }
    }
}

/// A file of lines of which one is at fault.
#[derive(Clone, Copy, Debug, PartialEq, Eq)]
pub enum FileKind {
    /// The text of a set.
    Set,
    /// The text of a plan.
    Plan,
}

impl FileKind {
    /// The word with which a line begins that tells of a line at fault in it.
    pub(crate) fn word(self) -> &'static [u8]
        ensures { result.now ≡ file_word self }
    {
        match self {
            FileKind::Set => b"set",
            FileKind::Plan => b"plan",
        }
    }
}
