//! Why a file of lines isn't read.
ghost use Rattle.std.specs.Prelude.{◌≡◌};
ghost use Rattle.yt_base.specs.declared.file_error.LineError.TheVariants.{Memory};
ghost use Rattle.yt_base.specs.Inside.LineErrors.{error_at};

use std::alloc::AllocError;

/// Why a line isn't read.
#[derive(Clone, Copy, Debug, PartialEq, Eq, Drop)]
pub enum LineError<F> {
    /// The line's first fault.
    Fault(F),
    /// Memory ran out.
    Memory,
}

/// Why a file of lines isn't read.
#[derive(Clone, Copy, Debug, PartialEq, Eq, Drop)]
pub enum FileError<F> {
    /// The first line at fault, by its number from 1, and its first fault.
    Line(u32, F),
    /// Memory ran out.
    Memory,
}

impl<F> From<AllocError> for LineError<F> {
    ghost from_gives = { λ _ e. e ≡ Memory };

    fn from(_error: AllocError) -> Self {
        LineError::Memory
    }
}

impl<F> LineError<F> {
    /// The same of the file that has the line at this number, from 1.
    pub(crate) fn at(self, number: u32) -> FileError<F>
        ensures { result ≡ error_at number self }
    {
        match self {
            LineError::Fault(fault) => FileError::Line(number, fault),
            LineError::Memory => FileError::Memory,
        }
    }
}
