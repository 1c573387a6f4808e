//! The fields of a job's line, and what they say.
ghost use Rattle.std.specs.Prelude.{◌≡◌, MatchOption, MatchResult, Some, None, true, false};
ghost use Rattle.yt_base.specs.Digits.{is_digits};
ghost use Rattle.yt_base.specs.Lines.{fields_of};
ghost use Rattle.yt_log.specs.PlanText.{item_texts};
ghost use Rattle.yt_log.specs.Inside.PlanReading.{texts_of, capped};

use crate::item_fault::ItemFault;
use yt_base::{Decimal, Fields, digits};

/// The fields of a job's line.
#[derive(Clone, Copy)]
pub(crate) struct ItemLine<'a> {
    pub(crate) arrival: &'a [u8],
    pub(crate) task: &'a [u8],
    pub(crate) cost: &'a [u8],
}

impl<'a> ItemLine<'a> {
    /// The fields of a line; `None` exactly where it has another number of them.
    pub(crate) fn new(line: &'a [u8]) -> Option<Self>
        ensures { MatchOption result
            (item_texts (fields_of line.now) ≡ None)
            (λ t. item_texts (fields_of line.now) ≡ Some (texts_of t)) }
    {
        let mut fields = Fields::new(line);
        let arrival = fields.next()?;
        let task = fields.next()?;
        let cost = fields.next()?;
        if fields.next().is_some() {
            return None;
        }
        Some(ItemLine {
            arrival,
            task,
            cost,
        })
    }
}

/// An arrival or a cost, and 2^64 - 1 for each greater one. The fault is `Form`, exactly where the field isn't digits.
pub(crate) fn ticks(text: &[u8]) -> Result<u64, ItemFault>
    ensures { MatchResult result
        (λ ticks. (is_digits text.now ≡ true) × (ticks ≡ capped text.now))
        (λ fault. (is_digits text.now ≡ false) × (fault ≡ ItemFault.Form)) }
{
    match digits(text) {
        Decimal::Other => Err(ItemFault::Form),
        Decimal::Over => Ok(u64::MAX),
        Decimal::Value(value) => Ok(value),
    }
}
