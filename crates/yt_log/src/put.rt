//! Puts the lines of a printed schedule.
ghost use Rattle.std.specs.Prelude.{◌≡◌, ◌++◌, OnOk};
ghost use Rattle.yt_log.specs.Printed.{end_line, segment_line};

use crate::job::Segment;
use std::alloc::AllocError;
use yt_base::Text;

/// Adds a segment's line, with its line feed: `run FROM TO NAME NUMBER`, with the name of the job's task and the job's number. `Err`
/// comes where memory ran out.
pub fn put_segment(text: &mut Text, label: &[u8], segment: &Segment) -> Result<(), AllocError>
    ensures { OnOk result (text.new ≡ text.old ++ segment_line label.now segment.now) }
{
    text.put(b"run")?;
    text.put_field(segment.from)?;
    text.put_field(segment.to)?;
    text.put(b" ")?;
    text.put(label)?;
    text.put_field(u64::from(segment.job.number))?;
    text.put(b"\n")
}

/// Adds the line of the end, with its line feed: `end TIME`, by its time in ticks. `Err` comes where memory ran out.
pub fn put_end(text: &mut Text, time: u64) -> Result<(), AllocError>
    ensures { OnOk result (text.new ≡ text.old ++ end_line time) }
{
    text.put(b"end")?;
    text.put_field(time)?;
    text.put(b"\n")
}
