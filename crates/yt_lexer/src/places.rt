//! The line and the column behind bytes.
ghost use Rattle.std.specs.Prelude.{◌≡◌, ◌≤◌, ◌<◌, ◌+◌, ◌^◌, length};
ghost use Rattle.yt_base.specs.Limits.{most_text_bytes};
ghost use Rattle.yt_lexer.specs.Places.{next_place, place_after, place_of};

use yt_graph::Place;

/// The place of the end of a text, which has at most 16,777,216 bytes.
pub fn end_place(text: &[u8]) -> Place
    requires { length text.now ≤ most_text_bytes }
    ensures { result ≡ place_of text.now (length text.now) }
{
    place_behind(Place { line: 1, col: 1 }, text)
}

/// The place behind bytes that begin at a place.
pub(crate) fn place_behind(place: Place, bytes: &[u8]) -> Place
    requires line { place.line + length bytes.now < 2 ^ 32 }
    requires col { place.col + length bytes.now < 2 ^ 32 }
    ensures { result ≡ place_after place bytes.now }
{
    let mut here = place;
    for b in bytes {
        here = next_place(here, *b);
    }
    here
}

/// The place behind one byte.
fn next_place(place: Place, b: u8) -> Place
    requires line { place.line + 1 < 2 ^ 32 }
    requires col { place.col + 1 < 2 ^ 32 }
    ensures { result ≡ next_place place b }
{
    if b == b'\n' {
        return Place {
            line: place.line + 1,
            col: 1,
        };
    }
    Place {
        line: place.line,
        col: place.col + 1,
    }
}
