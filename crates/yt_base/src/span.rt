//! Where the next line and the next field of a text stand.
ghost use Rattle.std.specs.Prelude.{◌≡◌, ◌+◌, ◌-◌, ◌<◌, ◌≤◌, ◌==◌, ◌↔◌, [], ◌∷◌, length, take, drop, min, slice_range, IsNone, IfSome, MatchOption};
ghost use Rattle.std.specs.List.{position_or_len, prefix_len, AllPass};
ghost use Rattle.yt_base.specs.Lines.{is_feed, is_blank, body_len, lines_of, fields_of};

/// A piece of a text by places from 0: it begins at `from` and ends before `to`, and the text goes on at `next`.
#[derive(Clone, Copy, Debug, PartialEq, Eq)]
pub struct Span {
    /// Where the piece begins.
    pub from: usize,
    /// Where it ends: the place behind its last byte.
    pub to: usize,
    /// Where to look for what comes after it.
    pub next: usize,
}

/// The line that begins at the place `from`; `None` exactly where the text ends there.
///
/// The span leaves out the line feed, and one carriage return at the end of the line or of the text.
pub fn next_line(text: &[u8], from: usize) -> Option<Span>
    requires { from ≤ length text.now }
    ensures none { IsNone result ↔ (from ≡ length text.now) }
    ensures start { IfSome result (λ s. s.from ≡ from) }
    ensures end { IfSome result (λ s. s.to ≡ from + body_len (take (position_or_len is_feed (drop from text.now)) (drop from text.now))) }
    ensures next { IfSome result (λ s. s.next ≡ min (from + position_or_len is_feed (drop from text.now) + 1) (length text.now)) }
    ensures inside { IfSome result (λ s. (s.from ≤ s.to) × (s.to ≤ s.next) × (s.next ≤ length text.now) × (from < s.next)) }

    // Line by line these are the lines of the text.
    ensures lines { MatchOption result (lines_of (drop from text.now) ≡ [])
        (λ s. lines_of (drop from text.now) ≡ slice_range text.now s.from s.to ∷ lines_of (drop s.next text.now)) }
{
    let rest = &text[from..];
    if rest.is_empty() {
        return None;
    }
    let n = before_feed(rest);
    Some(Span {
        from,
        to: from + without_return(&rest[..n]),
        next: from + (n + 1).min(rest.len()),
    })
}

/// How many bytes stand before the first line feed.
fn before_feed(text: &[u8]) -> usize
    ensures value { result ≡ position_or_len is_feed text.now }
    ensures bound { result ≤ length text.now }
{
    text.iter().take_while(|b| **b != 10).count()
}

/// How many bytes a line has without the carriage return at its end.
fn without_return(line: &[u8]) -> usize
    ensures value { result ≡ body_len line.now }
    ensures bound { result ≤ length line.now }
{
    match line {
        [front @ .., 13] => front.len(),
        _ => line.len(),
    }
}

/// The first field between the places `from` and `to`, which spaces and tabs part from others; `None` exactly where nothing
/// but spaces and tabs stands there.
pub fn next_field(text: &[u8], from: usize, to: usize) -> Option<Span>
    requires order { from ≤ to }
    requires inside { to ≤ length text.now }
    ensures none { IsNone result ↔ AllPass is_blank (slice_range text.now from to) }
    ensures start { IfSome result (λ s. s.from ≡ from + prefix_len is_blank (slice_range text.now from to)) }
    ensures end { IfSome result (λ s. s.to ≡ s.from + position_or_len is_blank (drop (s.from - from) (slice_range text.now from to))) }
    ensures next { IfSome result (λ s. s.next ≡ s.to) }
    ensures inside { IfSome result (λ s. (from ≤ s.from) × (s.from < s.to) × (s.to ≤ to)) }

    // Field by field these are the fields that stand there.
    ensures fields { MatchOption result (fields_of (slice_range text.now from to) ≡ [])
        (λ s. fields_of (slice_range text.now from to) ≡ slice_range text.now s.from s.to ∷ fields_of (slice_range text.now s.next to)) }
{
    let part = &text[from..to];
    let start = blanks(part);
    if start == part.len() {
        return None;
    }
    let end = start + before_blank(&part[start..]);
    Some(Span {
        from: from + start,
        to: from + end,
        next: from + end,
    })
}

/// How many blanks stand in front.
fn blanks(text: &[u8]) -> usize
    ensures value { result ≡ prefix_len is_blank text.now }
    ensures bound { result ≤ length text.now }
{
    text.iter().take_while(|b| blank(**b)).count()
}

/// How many bytes stand before the first blank.
fn before_blank(text: &[u8]) -> usize
    ensures value { result ≡ position_or_len is_blank text.now }
    ensures bound { result ≤ length text.now }
{
    text.iter().take_while(|b| !blank(**b)).count()
}

/// Whether a byte is a space or a tab.
fn blank(b: u8) -> bool
    ensures { result ≡ is_blank b }
{
    b == b' ' || b == b'\t'
}
