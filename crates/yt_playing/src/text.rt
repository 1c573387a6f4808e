//! What is printed of a play.
ghost use Rattle.std.specs.Prelude.{◌≡◌, ◌≤◌, ◌++◌, length, IfOk, OnOk};
ghost use Rattle.yt_log.specs.Segments.{segments_below, segments_of};
ghost use Rattle.yt_playing.specs.Inside.Cut.{line_below};
ghost use Rattle.yt_playing.specs.Texts.{end_of, kept_text, miss_line, missed_text, play_lines};

use std::alloc::{AllocError, Global};
use yt_base::Text;
use yt_fitting::task_label;
use yt_list::Name;
use yt_log::{Log, Miss, Segment, put_end, put_segment};

/// The text of a play without a miss: its whole schedule, and the end of its last segment. `Err` comes where memory ran out.
pub(crate) fn kept_text(alloc: Global, labels: &[Name], log: &Log) -> Result<Text, AllocError>
    ensures { IfOk result (λ t. t ≡ kept_text labels.now log.now) }
{
    let mut text = Text::new(alloc);
    put_schedule(&mut text, labels, log, log.until())?;
    put_end(&mut text, end_of(log.segments()))?;
    Ok(text)
}

/// The text of a play by its first miss, whose deadline the caller shows to be within the log: the schedule up to it, and the miss.
/// `Err` comes where memory ran out.
pub(crate) fn missed_text(
    alloc: Global,
    labels: &[Name],
    log: &Log,
    miss: Miss,
) -> Result<Text, AllocError>
    requires { miss.due ≤ length log.now }
    ensures { IfOk result (λ t. t ≡ missed_text labels.now log.now miss.job miss.due) }
{
    let mut text = Text::new(alloc);
    put_schedule(&mut text, labels, log, miss.due)?;
    put_miss(&mut text, labels, miss)?;
    Ok(text)
}

/// Adds a line for each segment of the ticks below `stop`. The caller shows that the log has so many.
fn put_schedule(text: &mut Text, labels: &[Name], log: &Log, stop: u64) -> Result<(), AllocError>
    requires { stop ≤ length log.now }
    ensures { OnOk result (text.new ≡ text.old ++ play_lines labels.now (segments_below log.now stop)) }
{
    for segment in log.segments() {
        put_below(text, labels, segment, stop)?;
    }
    Ok(())
}

/// Adds the line of a segment that begins below `stop`, cut there where it goes beyond.
fn put_below(
    text: &mut Text,
    labels: &[Name],
    segment: &Segment,
    stop: u64,
) -> Result<(), AllocError>
    ensures { OnOk result (text.new ≡ text.old ++ line_below labels.now stop segment.now) }
{
    if segment.from >= stop {
        return Ok(());
    }
    let cut = Segment {
        to: segment.to.min(stop),
        ..*segment
    };
    put_segment(text, task_label(labels, segment.job.task), &cut)
}

/// Adds the line of a job that misses its deadline.
fn put_miss(text: &mut Text, labels: &[Name], miss: Miss) -> Result<(), AllocError>
    ensures { OnOk result (text.new ≡ text.old ++ miss_line labels.now miss.job miss.due) }
{
    text.put(b"miss ")?;
    text.put(task_label(labels, miss.job.task))?;
    text.put_field(u64::from(miss.job.number))?;
    text.put_field(miss.due)?;
    text.put(b"\n")
}

/// Where the last segment ends, 0 where there is none.
fn end_of(segments: &[Segment]) -> u64
    ensures { result ≡ end_of segments.now }
{
    match segments.last() {
        Some(last) => last.to,
        None => 0,
    }
}
