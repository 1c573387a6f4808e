//! From the bytes of a text to its tokens.
ghost use Rattle.std.specs.Prelude.{◌≡◌, ◌≤◌, ◌<◌, ◌+◌, None, length, IfOk, IfErr, List, Option};
ghost use Rattle.yt_lexer.specs.declared.token.Token.{Token};
ghost use Rattle.yt_lexer.specs.declared.token.LexFault.{LexFault};
ghost use Rattle.yt_base.specs.Limits.{most_text_bytes};
ghost use Rattle.yt_lexer.specs.Inside.Spots.{IsSpot};
ghost use Rattle.yt_lexer.specs.Lexes.{IsTokenAt, IsFaultAt, Lexes, IsFirstFault, Gives};

use crate::blanks::blank_len;
use crate::first::first_token;
use crate::places::place_behind;
use crate::token::{LexFault, Token, Tokens};
use std::alloc::Global;
use yt_graph::Place;

/// A byte of a text, or its end: how many bytes stand before it, and its line and column.
#[derive(Clone, Copy)]
pub(crate) struct Spot {
    /// How many bytes stand before it.
    pub(crate) at: usize,
    /// Its line and its column.
    pub(crate) place: Place,
}

/// The tokens of a text, in order, or its first fault.
///
/// The text has at most 16,777,216 bytes. `BadByte`, `LongName` and `BigNumber` come exactly where the first fault of the
/// text is of that kind and at that place, unless memory runs out.
pub fn lex(alloc: Global, text: &[u8]) -> Result<Tokens, LexFault>
    requires { length text.now ≤ most_text_bytes }

    // The tokens are those of the text, which has no fault.
    ensures ok { IfOk result (λ tokens. Lexes text.now 0 tokens None) }

    // A fault is the text's first.
    ensures err { IfErr result (λ fault. IsFirstFault text.now fault) }

    // A text has no other tokens, and no other first fault.
    ensures only { (tokens : List Token) (end : Option LexFault) → Lexes text.now 0 tokens end → Gives result tokens end }
{
    let mut tokens = Tokens::new(alloc);
    let mut spot = Spot {
        at: 0,
        place: Place { line: 1, col: 1 },
    };
    'tokens: loop {
        let next = behind(text, spot, blank_len(&text[spot.at..]));
        if next.at == text.len() {
            return Ok(tokens);
        }
        let (token, end) = token_at(text, next)?;
        tokens.push(token)?;
        spot = end;
    }
}

/// The token that begins here, and the spot behind it; or the fault.
fn token_at(text: &[u8], spot: Spot) -> Result<(Token, Spot), LexFault>
    requires short { length text.now ≤ most_text_bytes }
    requires more { spot.at < length text.now }
    requires spot { IsSpot text.now spot.at spot.place }
    ensures ok { IfOk result (λ r. IsTokenAt text.now spot.at r.0) }
    ensures end { IfOk result (λ r. (r.1.at ≡ r.0.to) × (spot.at < r.1.at)) }
    ensures spot { IfOk result (λ r. IsSpot text.now r.1.at r.1.place) }
    ensures err { IfErr result (λ fault. IsFaultAt text.now spot.at fault) }
{
    let (kind, len) = first_token(spot.place, &text[spot.at..])?;
    let end = behind(text, spot, len);
    let token = Token {
        kind,
        from: spot.at as u32,
        to: end.at as u32,
        place: spot.place,
    };
    Ok((token, end))
}

/// The spot so many bytes behind another.
fn behind(text: &[u8], spot: Spot, len: usize) -> Spot
    requires short { length text.now ≤ most_text_bytes }
    requires inside { spot.at + len ≤ length text.now }
    requires spot { IsSpot text.now spot.at spot.place }
    ensures at { result.at ≡ spot.at + len }
    ensures spot { IsSpot text.now result.at result.place }
{
    let at = spot.at + len;
    Spot {
        at,
        place: place_behind(spot.place, &text[spot.at..at]),
    }
}
