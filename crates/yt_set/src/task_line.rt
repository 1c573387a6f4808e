//! The fields of a task's line, and what they say.
ghost use Rattle.std.specs.Prelude.{◌≡◌, ◌&&◌, MatchOption, MatchResult, Some, None, true, false};
ghost use Rattle.std.specs.List.{list_all};
ghost use Rattle.yt_base.specs.Digits.{is_digits};
ghost use Rattle.yt_base.specs.Lines.{fields_of};
ghost use Rattle.yt_set.specs.SetText.{task_texts, is_name_byte, is_name, is_group};
ghost use Rattle.yt_set.specs.Inside.Reading.{texts_of, ticks_of};

use crate::read::LineFault;
use crate::set::in_range;
use yt_base::{Decimal, Fields, digits};

/// How many bytes a name has at most.
const MOST_NAME_BYTES: usize = 65;

/// The fields of a task's line behind its first. The last one is empty where the task is under no resource.
#[derive(Clone, Copy)]
pub(crate) struct TaskLine<'a> {
    pub(crate) name: &'a [u8],
    pub(crate) cost: &'a [u8],
    pub(crate) period: &'a [u8],
    pub(crate) group: &'a [u8],
}

/// A task that a line says, its resource by name, which is empty where it is under none.
#[derive(Clone, Copy)]
pub(crate) struct NewTask<'a> {
    pub(crate) name: &'a [u8],
    pub(crate) cost: u64,
    pub(crate) period: u64,
    pub(crate) group: &'a [u8],
}

impl<'a> TaskLine<'a> {
    /// The fields of a line; `None` exactly where it has another number of them, or another first word.
    pub(crate) fn new(line: &'a [u8]) -> Option<Self>
        ensures { MatchOption result
            (task_texts (fields_of line.now) ≡ None)
            (λ t. task_texts (fields_of line.now) ≡ Some (texts_of t)) }
    {
        let mut fields = Fields::new(line);
        let word = fields.next()?;
        let name = fields.next()?;
        let cost = fields.next()?;
        let period = fields.next()?;
        let group = fields.next().unwrap_or(b"");
        if fields.next().is_some() || word != b"task".as_slice() {
            return None;
        }
        Some(TaskLine {
            name,
            cost,
            period,
            group,
        })
    }

    /// Whether the names of the task and of its resource are names; a task may be under no resource.
    pub(crate) fn has_names(&self) -> bool
        ensures { result ≡ is_name self.now.name.now && is_group self.now.group.now }
    {
        is_name(self.name) && (self.group.is_empty() || is_name(self.group))
    }
}

/// A cost or a period: `None` exactly where it is out of its range, however many digits it has. The fault is `Form`, exactly
/// where the field isn't digits.
pub(crate) fn ticks(text: &[u8]) -> Result<Option<u64>, LineFault>
    ensures { MatchResult result
        (λ ticks. (is_digits text.now ≡ true) × (ticks ≡ ticks_of text.now))
        (λ fault. (is_digits text.now ≡ false) × (fault ≡ LineFault.Form)) }
{
    match digits(text) {
        Decimal::Other => Err(LineFault::Form),
        Decimal::Over => Ok(None),
        Decimal::Value(value) => Ok(if in_range(value) { Some(value) } else { None }),
    }
}

/// Whether it is a name: 1 to 65 ASCII letters, digits, `_` and `.`.
fn is_name(text: &[u8]) -> bool
    ensures { result ≡ is_name text.now }
{
    !text.is_empty() && text.len() <= MOST_NAME_BYTES && has_name_bytes(text)
}

/// Whether each byte is an ASCII letter, a digit, `_` or `.`.
fn has_name_bytes(text: &[u8]) -> bool
    ensures { result ≡ list_all is_name_byte text.now }
{
    text.iter().all(|b| is_name_byte(*b))
}

/// Whether it is an ASCII letter, a digit, `_` or `.`.
fn is_name_byte(b: u8) -> bool
    ensures { result ≡ is_name_byte b }
{
    b.is_ascii_alphabetic() || b.is_ascii_digit() || b == b'_' || b == b'.'
}
