//! What is printed of tasks that don't fit: why, and the arrivals that show it.
ghost use Rattle.std.specs.Prelude.{◌≡◌, [], ◌++◌, IfOk, OnOk, length};
ghost use Rattle.yt_fits.specs.Unfits.{IsReason};
ghost use Rattle.yt_fits.specs.declared.unfit.Unfit.TheVariants.{Overload, Interval};
ghost use Rattle.yt_list.specs.Numbered.{numbered_or};
ghost use Rattle.yt_witness.specs.declared.pattern.Pattern.TheVariants.{All, Blocker};
ghost use Rattle.yt_witness.specs.Witnesses.{IsPatternOf, arrivals_of, as_arrivals};
ghost use Rattle.yt_fitting.specs.Loads.{IsOverload};
ghost use Rattle.yt_fitting.specs.TaskText.{arrivals_text, arrive_lines, interval_line, load_line, pattern_text};

use crate::labels::task_label;
use crate::load_text::put_load;
use std::alloc::{AllocError, Global};
use yt_base::Text;
use yt_fits::{Breach, LoadSum};
use yt_list::Name;
use yt_set::TaskSet;
use yt_witness::{Arrivals, Pattern, arrive, load_pattern, room_pattern};

/// The text of tasks with these names whose load doesn't fit: the load, the arrivals that show it, and the tick by which a deadline
/// is missed.
pub(crate) fn load_overload(
    alloc: Global,
    labels: &[Name],
    set: &TaskSet,
    sum: LoadSum,
) -> Result<Text, AllocError>
    requires labels { length labels.now ≡ length set.now }
    requires why { IsReason set.now (Overload sum) }
    ensures { IfOk result (λ t. IsOverload labels.now set.now (load_line sum) (All sum.whole) t) }
{
    let mut text = Text::new(alloc);
    text.put(b"overload load ")?;
    put_load(&mut text, sum)?;
    text.put(b"\n")?;
    put_pattern(&mut text, labels, set, &load_pattern(set, sum))?;
    Ok(text)
}

/// The text of tasks with these names of which one lacks room: that task, the span and what is asked for in it, the arrivals that
/// show it, and the tick by which a deadline is missed.
pub(crate) fn room_overload(
    alloc: Global,
    labels: &[Name],
    set: &TaskSet,
    breach: Breach,
) -> Result<Text, AllocError>
    requires labels { length labels.now ≡ length set.now }
    requires why { IsReason set.now (Interval breach) }
    ensures { IfOk result (λ t. IsOverload labels.now set.now (interval_line (numbered_or labels.now breach.task []) breach) (Blocker breach.task breach.len) t) }
{
    let mut text = Text::new(alloc);
    text.put(b"overload interval ")?;
    text.put(task_label(labels, breach.task))?;
    text.put_field(breach.len)?;
    text.put_wide_field(breach.need)?;
    text.put(b"\n")?;
    put_pattern(&mut text, labels, set, &room_pattern(set, breach))?;
    Ok(text)
}

/// Adds the arrivals of a pattern, and the tick by which a deadline is missed.
fn put_pattern(
    text: &mut Text,
    labels: &[Name],
    set: &TaskSet,
    pattern: &Pattern,
) -> Result<(), AllocError>
    requires labels { length labels.now ≡ length set.now }
    requires pattern { IsPatternOf set.now pattern.now }
    ensures { OnOk result (text.new ≡ text.old ++ pattern_text labels.now set.now pattern.now) }
{
    put_arrivals(text, labels, set, pattern)?;
    text.put(b"horizon ")?;
    text.put_u128(pattern.horizon())?;
    text.put(b"\n")
}

/// Adds a line for each task that arrives in a pattern.
fn put_arrivals(
    text: &mut Text,
    labels: &[Name],
    set: &TaskSet,
    pattern: &Pattern,
) -> Result<(), AllocError>
    requires labels { length labels.now ≡ length set.now }
    requires pattern { IsPatternOf set.now pattern.now }
    ensures { OnOk result (text.new ≡ text.old ++ arrive_lines labels.now 1 (arrivals_of set.now pattern.now)) }
{
    for n in 0..set.len() {
        put_arrival(text, task_label(labels, n + 1), arrive(set, pattern, n + 1))?;
    }
    Ok(())
}

/// Adds the line of a task's arrivals, where it arrives.
fn put_arrival(text: &mut Text, label: &[u8], arrivals: Arrivals) -> Result<(), AllocError>
    ensures { OnOk result (text.new ≡ text.old ++ arrivals_text label.now (as_arrivals arrivals)) }
{
    if arrivals.count == 0 {
        return Ok(());
    }
    text.put(b"arrive ")?;
    text.put(label)?;
    text.put_field(arrivals.first)?;
    text.put_field(arrivals.step)?;
    text.put_wide_field(arrivals.count)?;
    text.put_field(arrivals.cost)?;
    text.put(b"\n")
}
