//! The fields of a message's line, and what they say.
ghost use Rattle.std.specs.Prelude.{◌≡◌, MatchOption, IfOk, Some, None, true, false};
ghost use Rattle.yt_base.specs.Digits.{is_digits};
ghost use Rattle.yt_base.specs.Lines.{fields_of};
ghost use Rattle.yt_trace.specs.TraceText.{values_of};
ghost use Rattle.yt_trace.specs.Inside.Lines.{capped, head_of, line_head};

use std::alloc::{AllocError, Global};
use yt_base::{Decimal, Fields, digits, signed};
use yt_list::Vals;

/// What a message's line says of its time and its input, and the fields of its values.
#[derive(Drop)]
pub(crate) struct MessageLine<'a> {
    /// The tick, and 2^64 - 1 for each greater one.
    pub(crate) time: u64,
    pub(crate) input: &'a [u8],
    pub(crate) values: Fields<'a>,
}

impl<'a> MessageLine<'a> {
    /// The fields of a line; `None` exactly where there are fewer than two, or the first isn't digits.
    pub(crate) fn new(line: &'a [u8]) -> Option<Self>
        ensures { MatchOption result
            (line_head (fields_of line.now) ≡ None)
            (λ head. line_head (fields_of line.now) ≡ Some (head_of head)) }
    {
        let mut fields = Fields::new(line);
        let time = fields.next()?;
        let input = fields.next()?;
        Some(MessageLine {
            time: tick(time)?,
            input,
            values: fields,
        })
    }
}

/// A time, and 2^64 - 1 for each greater one; `None` exactly where the field isn't digits.
fn tick(text: &[u8]) -> Option<u64>
    ensures { MatchOption result
        (is_digits text.now ≡ false)
        (λ time. (is_digits text.now ≡ true) × (time ≡ capped text.now)) }
{
    match digits(text) {
        Decimal::Other => None,
        Decimal::Over => Some(u64::MAX),
        Decimal::Value(value) => Some(value),
    }
}

/// The numbers that the fields say; `None` exactly where one of them is no number of 64 bits with a sign.
pub(crate) fn values_of(alloc: Global, fields: Fields<'_>) -> Result<Option<Vals>, AllocError>
    ensures { IfOk result (λ values. MatchOption values
        (values_of fields.entry ≡ None)
        (λ v. values_of fields.entry ≡ Some v)) }
{
    let mut fields = fields;
    let mut values = Vals::new(alloc);
    while let Some(field) = fields.next() {
        let Some(value) = signed(field) else {
            return Ok(None);
        };
        values.push(value)?;
    }
    Ok(Some(values))
}
