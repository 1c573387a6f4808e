//! Two lists of jobs, put together in order.
ghost use Rattle.std.specs.Prelude.{◌≡◌, ◌≤◌, drop, length, IfOk};
ghost use Rattle.yt_log.specs.Patterns.{item_before};
ghost use Rattle.yt_witness.specs.Inside.Merging.{AreSpread, is_second_next, with_all};

use std::alloc::{AllocError, Global};
use yt_log::PlanItem;

/// The jobs of two lists in order, in order, of which those of the first arrive one after another. `Err` comes where memory ran out.
pub(crate) fn merge(
    alloc: Global,
    first: &[PlanItem],
    second: &[PlanItem],
) -> Result<Vec<PlanItem>, AllocError>
    requires { AreSpread 0 first.now }
    ensures { IfOk result (λ all. all.items ≡ with_all first.now second.now) }
{
    let mut all = Vec::new(alloc);
    let (mut i, mut j) = (0, 0);
    'left: while i < first.len() || j < second.len() {
        if is_second_next(first, i, second, j) {
            all.push(second[j])?;
            j += 1;
        } else {
            all.push(first[i])?;
            i += 1;
        }
    }
    Ok(all)
}

/// Whether the next job is that of the second list. Of each list the jobs from a place on are left.
fn is_second_next(first: &[PlanItem], i: usize, second: &[PlanItem], j: usize) -> bool
    requires first { i ≤ length first.now }
    requires second { j ≤ length second.now }
    ensures { result ≡ is_second_next (drop i first.now) (drop j second.now) }
{
    j < second.len() && (i == first.len() || comes_before(&second[j], &first[i]))
}

/// Whether a job comes before another: by its arrival, and then by its task.
fn comes_before(a: &PlanItem, b: &PlanItem) -> bool
    ensures { result ≡ item_before a.now b.now }
{
    a.arrival < b.arrival || a.arrival == b.arrival && a.job.task < b.job.task
}
