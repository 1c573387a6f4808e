//! Tokens, and what can be wrong where one is looked for.
ghost use Rattle.std.specs.Prelude.{◌≡◌};
ghost use Rattle.yt_lexer.specs.declared.token.LexFault.TheVariants.{Memory};

use std::alloc::AllocError;
use yt_graph::Place;
use yt_list::Items;

/// What a token is.
#[derive(Clone, Copy, Debug, PartialEq, Eq)]
pub enum TokenKind {
    /// A word that isn't reserved: it can name something.
    Word,
    /// A reserved word.
    Key,
    /// A number, with its value.
    Number(i64),
    /// A symbol of one byte or two.
    Symbol,
}

/// A token of a text. Its own text is the slice from `from` to `to`.
#[derive(Clone, Copy, Debug, PartialEq, Eq)]
pub struct Token {
    /// What it is.
    pub kind: TokenKind,
    /// How many bytes stand before it.
    pub from: u32,
    /// How many bytes stand before its end.
    pub to: u32,
    /// The line and the column of its first byte.
    pub place: Place,
}

/// Tokens in order.
pub type Tokens = Items<Token>;

/// Why a text has no tokens.
#[derive(Clone, Copy, Debug, PartialEq, Eq)]
pub enum LexFault {
    /// Here no token, white space or comment begins.
    BadByte(Place),
    /// The word that begins here has more than 32 bytes.
    LongName(Place),
    /// The number that begins here passes 2^63 - 1.
    BigNumber(Place),
    /// Memory for the tokens ran out.
    Memory,
}

impl From<AllocError> for LexFault {
    ghost from_gives = { λ _ e. e ≡ Memory };

    fn from(_: AllocError) -> Self {
        LexFault::Memory
    }
}
