//! An answer: a verdict and the text that goes with it.
ghost use Rattle.std.specs.Prelude.{◌≡◌, IfOk};
ghost use Rattle.yt_answer.specs.declared.verdict.Verdict.TheVariants.{Done, Graph, NotYet};
ghost use Rattle.yt_answer.specs.Due.{not_yet_line};

use crate::verdict::Verdict;
use std::alloc::{AllocError, Global};
use yt_base::Text;

/// What is written where something isn't built yet.
pub const NOT_YET: &[u8] = b"notyet\n";

/// A verdict and the text that goes with it.
#[derive(Drop)]
pub struct Answer {
    /// What is found.
    pub verdict: Verdict,
    /// What is written.
    pub text: Text,
}

impl Answer {
    /// The answer to what was judged and is in order.
    pub fn done(text: Text) -> Self
        ensures { result ≡ record { verdict = Done; text = text } }
    {
        Answer {
            verdict: Verdict::Done,
            text,
        }
    }

    /// The answer to a graph or a set that is refused.
    pub fn refused(text: Text) -> Self
        ensures { result ≡ record { verdict = Graph; text = text } }
    {
        Answer {
            verdict: Verdict::Graph,
            text,
        }
    }
}

/// The answer to a form that isn't built yet. `Err` comes where memory ran out.
pub fn not_yet(alloc: Global) -> Result<Answer, AllocError>
    ensures { IfOk result (λ a. a ≡ record { verdict = NotYet; text = not_yet_line }) }
{
    let mut text = Text::new(alloc);
    text.put(NOT_YET)?;
    Ok(Answer {
        verdict: Verdict::NotYet,
        text,
    })
}
