//! Rows of tests: words that are asked where a shelf in memory holds files, and what is wanted.
ghost use Rattle.std.specs.Prelude.{◌≡◌, OnOk};

use std::alloc::{AllocError, AllocFailed, Global};
use yartos::{Status, yartos};
use yt_io::{MemShelf, MemSink};

/// Files by their names and texts.
pub type Files = &'static [(&'static str, &'static str)];

/// The words, the files that the shelf holds, the status, and the printed text.
pub type Row = (&'static [&'static str], Files, Status, &'static str);

/// The words, the files, the read that fails, from 1, the write that fails and the bytes that it takes, the status, and the printed
/// text.
pub type FaultRow = (
    &'static [&'static str],
    Files,
    u64,
    (u64, usize),
    Status,
    &'static str,
);

/// Why a table isn't answered as it says.
#[derive(Debug, Drop)]
pub enum Wrong {
    /// The row of this number, from 0, has another answer, which is this.
    Row {
        number: usize,
        status: Status,
        text: String,
    },
    /// Memory ran out.
    Memory,
}

impl From<AllocError> for Wrong {
    fn from(_: AllocError) -> Self {
        Wrong::Memory
    }
}

impl<T: Drop> From<AllocFailed<T>> for Wrong {
    fn from(failed: AllocFailed<T>) -> Self {
        Wrong::from(AllocError::from(failed))
    }
}

/// Files that a shelf can hold. `Err` comes where memory ran out.
pub fn held(alloc: Global, files: &[(&str, &str)]) -> Result<Vec<(String, Vec<u8>)>, AllocError> {
    let mut held = Vec::new(alloc);
    for (name, text) in files {
        held.push((
            String::from_str(alloc, name)?,
            Vec::from_slice(alloc, text.as_bytes())?,
        ))?;
    }
    Ok(held)
}

/// The status of words, where the shelf holds these files and these reads fail, and what is printed goes to the sink. `Err` comes where
/// memory ran out before the words were asked.
pub fn ask(
    alloc: Global,
    words: &[&str],
    files: Vec<(String, Vec<u8>)>,
    failing_reads: Vec<u64>,
    sink: &mut MemSink,
) -> Result<Status, AllocError> {
    let mut list = Vec::new(alloc);
    for word in words {
        list.push(String::from_str(alloc, word)?)?;
    }
    let mut shelf = MemShelf::with(files, failing_reads);
    Ok(yartos(alloc, &list, &mut shelf, sink))
}

/// Checks that a row ended with this status and printed this text. `Err` comes where it didn't, or memory ran out.
fn compare(
    alloc: Global,
    number: usize,
    ended: Status,
    sink: &MemSink,
    status: Status,
    text: &str,
) -> Result<(), Wrong>
    ensures { OnOk result ((ended ≡ status) × (sink.now.bytes ≡ text.now)) }
{
    if ended == status && sink.bytes() == text.as_bytes() {
        return Ok(());
    }
    Err(Wrong::Row {
        number,
        status: ended,
        text: String::from_utf8_lossy(alloc, sink.bytes())?,
    })
}

/// Checks what words are answered where the shelf holds these files, and no read or write fails. The number tells the row. `Err` comes
/// where the answer is another, or memory ran out.
pub fn expect(
    alloc: Global,
    number: usize,
    words: &[&str],
    files: Vec<(String, Vec<u8>)>,
    status: Status,
    text: &str,
) -> Result<(), Wrong> {
    let mut sink = MemSink::with_room(alloc, 1000, Vec::new(alloc))?;
    let ended = ask(alloc, words, files, Vec::new(alloc), &mut sink)?;
    compare(alloc, number, ended, &sink, status, text)
}

/// Checks each row. `Err` comes at the first whose answer is another, or where memory ran out.
pub fn judge(alloc: Global, rows: &[Row]) -> Result<(), Wrong> {
    for (number, (words, files, status, text)) in rows.iter().enumerate() {
        expect(alloc, number, words, held(alloc, files)?, *status, text)?;
    }
    Ok(())
}

/// Checks each row with a fault. `Err` comes at the first whose answer is another, or where memory ran out.
pub fn judge_faults(alloc: Global, rows: &[FaultRow]) -> Result<(), Wrong> {
    for (number, (words, files, read, write, status, text)) in rows.iter().enumerate() {
        let mut sink = MemSink::with_room(alloc, 1000, vec![in alloc; *write]?)?;
        let files = held(alloc, files)?;
        let ended = ask(alloc, words, files, vec![in alloc; *read]?, &mut sink)?;
        compare(alloc, number, ended, &sink, *status, text)?;
    }
    Ok(())
}
