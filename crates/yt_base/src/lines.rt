//! The lines of a text and the fields of a line, one after the other.
ghost use Rattle.std.specs.Prelude.{◌≡◌, ◌≤◌, [], ◌∷◌, length, slice_get, slice_index, MatchOption, ◌==◌};
ghost use Rattle.yt_base.specs.Lines.{lines_of, fields_of};
ghost use Rattle.yt_base.specs.Files.{is_skipped};

use crate::span::{next_field, next_line};
use std::marker::Model;

/// The lines of a text that are still to be read. A contract sees the list of them.
#[derive(Drop)]
pub struct Lines<'a> {
    text: &'a [u8],
    from: usize,
}

impl<'a> Model for Lines<'a> {
    ghost use Rattle.std.specs.Prelude.{List, ℕ, ◌≤◌, drop, length};
    ghost use Rattle.yt_base.specs.Lines.{lines_of};

    ghost Value = { List (List ℕ) };

    ghost view = { λ l. lines_of (drop l.from l.text.now) };

    ghost invariant = { λ l. l.from ≤ length l.text.now };
}

impl<'a> Lines<'a> {
    /// All lines of a text. There are no more of them than bytes.
    pub fn new(text: &'a [u8]) -> Self
        ensures lines { result ≡ lines_of text.now }
        ensures few { length result ≤ length text.now }
    {
        Lines { text, from: 0 }
    }

    /// The next line, without its line feed and one carriage return before it; `None` exactly where none is left.
    pub fn next(&mut self) -> Option<&'a [u8]>
        ensures { MatchOption result ((self.old ≡ []) × (self.new ≡ [])) (λ line. self.old ≡ line.now ∷ self.new) }
    {
        let line = next_line(self.text, self.from)?;
        self.from = line.next;
        Some(&self.text[line.from..line.to])
    }
}

/// The fields of a line that are still to be read. A contract sees the list of them.
#[derive(Drop)]
pub struct Fields<'a> {
    line: &'a [u8],
    from: usize,
}

impl<'a> Model for Fields<'a> {
    ghost use Rattle.std.specs.Prelude.{List, ℕ, ◌≤◌, slice_range, length};
    ghost use Rattle.yt_base.specs.Lines.{fields_of};

    ghost Value = { List (List ℕ) };

    ghost view = { λ f. fields_of (slice_range f.line.now f.from (length f.line.now)) };

    ghost invariant = { λ f. f.from ≤ length f.line.now };
}

impl<'a> Fields<'a> {
    /// All fields of a line.
    pub fn new(line: &'a [u8]) -> Self
        ensures { result ≡ fields_of line.now }
    {
        Fields { line, from: 0 }
    }

    /// The next field; `None` exactly where none is left.
    pub fn next(&mut self) -> Option<&'a [u8]>
        ensures { MatchOption result ((self.old ≡ []) × (self.new ≡ [])) (λ field. self.old ≡ field.now ∷ self.new) }
    {
        let field = next_field(self.line, self.from, self.line.len())?;
        self.from = field.next;
        Some(&self.line[field.from..field.to])
    }
}

/// Whether a line says nothing: it has no fields, or the first begins with `#`.
pub fn is_skipped(line: &[u8]) -> bool
    ensures { result ≡ is_skipped (fields_of line.now) }
{
    match Fields::new(line).next() {
        Some(field) => field.first() == Some(&b'#'),
        None => true,
    }
}
