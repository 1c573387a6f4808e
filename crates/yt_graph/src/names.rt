//! Words that may name something.

ghost use Rattle.std.specs.Prelude.{◌≡◌};
ghost use Rattle.std.specs.List.{list_all};
ghost use Rattle.yt_graph.specs.Names.{is_letter, is_digit, is_word_byte, begins_as_word, is_name};

use crate::limits::MOST_NAME_BYTES;
use crate::reserved_words::reserved;

/// Whether a byte is an ASCII letter or `_`.
pub fn is_letter(b: u8) -> bool
    ensures { result ≡ is_letter b }
{
    b.is_ascii_alphabetic() || b == b'_'
}

/// Whether a byte is an ASCII digit.
pub fn is_digit(b: u8) -> bool
    ensures { result ≡ is_digit b }
{
    b.is_ascii_digit()
}

/// Whether a byte is an ASCII letter, a digit or `_`.
pub fn is_word_byte(b: u8) -> bool
    ensures { result ≡ is_word_byte b }
{
    is_letter(b) || is_digit(b)
}

/// Whether a word may name something: at most 32 letters, digits and `_`, no digit first, and not reserved.
pub fn is_name(word: &[u8]) -> bool
    ensures { result ≡ is_name word.now }
{
    begins_as_word(word) && has_word_bytes(word) && word.len() <= MOST_NAME_BYTES && !reserved(word)
}

/// Whether the first byte is a letter or `_`.
fn begins_as_word(word: &[u8]) -> bool
    ensures { result ≡ begins_as_word word.now }
{
    match word {
        [first, ..] => is_letter(*first),
        [] => false,
    }
}

/// Whether each byte is a letter, a digit or `_`.
fn has_word_bytes(word: &[u8]) -> bool
    ensures { result ≡ list_all is_word_byte word.now }
{
    word.iter().all(|b| is_word_byte(*b))
}
