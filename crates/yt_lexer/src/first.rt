//! The token at the front of a text.
ghost use Rattle.std.specs.Prelude.{◌≡◌, ◌≤◌, ◌<◌, length, IfOk};
ghost use Rattle.std.specs.List.{prefix_len};
ghost use Rattle.yt_lexer.specs.First.{is_digit, is_word_byte, takes_equals, is_symbol, symbol_len, word_token, number_token, symbol_token, first_token};

use crate::token::{LexFault, TokenKind};
use yt_base::signed;
use yt_graph::{MOST_NAME_BYTES, Place, is_digit, is_letter, is_word_byte, reserved};

/// The token at the front with its number of bytes, or the fault there.
#[tactic(auto, unfolding(crate::specs::First::first_token))]
pub(crate) fn first_token(place: Place, text: &[u8]) -> Result<(TokenKind, usize), LexFault>
    ensures value { result ≡ first_token place text.now }
    ensures len { IfOk result (λ r. (0 < r.1) × (r.1 ≤ length text.now)) }
{
    match text {
        [] => Err(LexFault::BadByte(place)),
        [b, ..] if is_letter(*b) => word_token(place, &text[..word_len(text)]),
        [b, ..] if is_digit(*b) => number_token(place, &text[..digit_len(text)]),
        _ => symbol_token(place, symbol_len(text)),
    }
}

/// What a word is.
#[tactic(auto, unfolding(crate::specs::First::word_token))]
fn word_token(place: Place, word: &[u8]) -> Result<(TokenKind, usize), LexFault>
    ensures value { result ≡ word_token place word.now }
    ensures len { IfOk result (λ r. r.1 ≡ length word.now) }
{
    if word.len() > MOST_NAME_BYTES {
        return Err(LexFault::LongName(place));
    }
    if reserved(word) {
        return Ok((TokenKind::Key, word.len()));
    }
    Ok((TokenKind::Word, word.len()))
}

/// What digits are.
#[tactic(auto, unfolding(crate::specs::First::number_token))]
fn number_token(place: Place, digits: &[u8]) -> Result<(TokenKind, usize), LexFault>
    ensures value { result ≡ number_token place digits.now }
    ensures len { IfOk result (λ r. r.1 ≡ length digits.now) }
{
    match signed(digits) {
        Some(n) => Ok((TokenKind::Number(n), digits.len())),
        None => Err(LexFault::BigNumber(place)),
    }
}

/// The symbol of so many bytes; none where there are none.
fn symbol_token(place: Place, len: usize) -> Result<(TokenKind, usize), LexFault>
    ensures value { result ≡ symbol_token place len }
    ensures len { IfOk result (λ r. (0 < r.1) × (r.1 ≡ len)) }
{
    if len == 0 {
        return Err(LexFault::BadByte(place));
    }
    Ok((TokenKind::Symbol, len))
}

/// How many letters, digits and `_` stand in front.
fn word_len(text: &[u8]) -> usize
    ensures value { result ≡ prefix_len is_word_byte text.now }
    ensures bound { result ≤ length text.now }
{
    text.iter().take_while(|b| is_word_byte(**b)).count()
}

/// How many digits stand in front.
fn digit_len(text: &[u8]) -> usize
    ensures value { result ≡ prefix_len is_digit text.now }
    ensures bound { result ≤ length text.now }
{
    text.iter().take_while(|b| is_digit(**b)).count()
}

/// How many bytes the longest symbol in front has; 0 where there is none.
fn symbol_len(text: &[u8]) -> usize
    ensures value { result ≡ symbol_len text.now }
    ensures bound { result ≤ length text.now }
{
    match text {
        [b, b'=', ..] if takes_equals(*b) => 2,
        [b, ..] if is_symbol(*b) => 1,
        _ => 0,
    }
}

/// Whether a byte with `=` behind it is a symbol.
fn takes_equals(b: u8) -> bool
    ensures { result ≡ takes_equals b }
{
    matches!(b, b'<' | b'>' | b'=' | b'!')
}

/// Whether a byte is a symbol by itself.
fn is_symbol(b: u8) -> bool
    ensures { result ≡ is_symbol b }
{
    matches!(b, b'('..=b'/' | b'<'..=b'>' | b'%' | b'{' | b'}')
}
