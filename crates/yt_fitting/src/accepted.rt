//! The answer to tasks that fit.
ghost use Rattle.std.specs.Prelude.{◌≡◌, IfOk};
ghost use Rattle.yt_answer.specs.declared.verdict.Verdict.TheVariants.{Done};
ghost use Rattle.yt_fits.specs.Loads.{load_sum};
ghost use Rattle.yt_fitting.specs.TaskText.{accepted_text};

use crate::load_text::put_load;
use std::alloc::{AllocError, Global};
use yt_answer::Answer;
use yt_base::Text;
use yt_fits::LoadSum;
use yt_set::TaskSet;

/// The answer to tasks that fit, with this load: they are accepted. `Err` comes where memory ran out.
pub fn accepted_answer(alloc: Global, set: &TaskSet, sum: LoadSum) -> Result<Answer, AllocError>
    requires { sum ≡ load_sum set.now }
    ensures { IfOk result (λ a. a ≡ record { verdict = Done; text = accepted_text set.now }) }
{
    Ok(Answer::done(accepted_line(alloc, set, sum)?))
}

/// The line of a set that is accepted, with its load.
fn accepted_line(alloc: Global, set: &TaskSet, sum: LoadSum) -> Result<Text, AllocError>
    requires { sum ≡ load_sum set.now }
    ensures { IfOk result (λ t. t ≡ accepted_text set.now) }
{
    let mut text = Text::new(alloc);
    text.put(b"accepted ")?;
    text.put_u64(u64::from(set.len()))?;
    text.put(b" ")?;
    put_load(&mut text, sum)?;
    text.put(b"\n")?;
    Ok(text)
}
