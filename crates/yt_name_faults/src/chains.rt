//! Where chains of sources lead.
ghost use Rattle.std.specs.Prelude.{◌≡◌, map, length, slice_get, is_some, IfOk, if◌then◌else◌};
ghost use Rattle.std.specs.Option.{option_flatten};
ghost use Rattle.yt_name_faults.specs.Paths.{step_back, steps_back};

use std::alloc::{AllocError, Global};

/// Where the chain of each port is after one step more than there are ports; nowhere where it has ended. `before` has for
/// each port, by its number, the one before it. Takes the ports times the logarithm of their count.
pub(crate) fn far_back(
    alloc: Global,
    before: &[Option<usize>],
) -> Result<Vec<Option<usize>>, AllocError>
    ensures { IfOk result (λ v. v.items ≡ map (steps_back before.now (length before.now)) before.now) }
{
    let mut at = before.to_vec(alloc)?;
    let mut jump = before.to_vec(alloc)?;
    let mut left = before.len();
    while left > 0 {
        at = moved_if(alloc, left % 2 == 1, at, &jump)?;
        jump = moved(alloc, &jump, &jump)?;
        left /= 2;
    }
    Ok(at)
}

/// All ports, one step on where that is asked for.
fn moved_if(
    alloc: Global,
    asked: bool,
    at: Vec<Option<usize>>,
    jump: &[Option<usize>],
) -> Result<Vec<Option<usize>>, AllocError>
    ensures { IfOk result (λ v. v.items ≡ (if asked then map (step_back jump.now) at.items else at.items)) }
{
    if asked {
        moved(alloc, &at, jump)
    } else {
        Ok(at)
    }
}

/// All ports, one step on.
fn moved(
    alloc: Global,
    at: &[Option<usize>],
    jump: &[Option<usize>],
) -> Result<Vec<Option<usize>>, AllocError>
    ensures { IfOk result (λ v. v.items ≡ map (step_back jump.now) at.now) }
{
    let mut all = Vec::with_capacity(alloc, at.len())?;
    for port in at {
        all.push(step(jump, *port))?;
    }
    Ok(all)
}

/// Whether a chain goes on, by where all chains are.
pub(crate) fn goes_on(far: &[Option<usize>], port: usize) -> bool
    ensures { result ≡ is_some (option_flatten (slice_get far.now port)) }
{
    match far.get(port) {
        None => false,
        Some(at) => at.is_some(),
    }
}

/// One step on.
fn step(jump: &[Option<usize>], at: Option<usize>) -> Option<usize>
    ensures { result ≡ step_back jump.now at }
{
    let next = jump.get(at?)?;
    *next
}
