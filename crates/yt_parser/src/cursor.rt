//! The tokens that are left to read.

ghost use Rattle.std.specs.Prelude.{◌≡◌, ◌≤◌, ◌<◌, ◌+◌, ◌==◌, ℤ, [], ◌∷◌, List, IfOk, length, drop, take, ◌-◌};
ghost use Rattle.yt_graph.specs.declared.ast.Word.{Word};
ghost use Rattle.yt_graph.specs.declared.ast.Num.{Num};
ghost use Rattle.yt_lexer.specs.declared.token.Token.{Token};
ghost use Rattle.yt_parser.specs.declared.cursor.Sign.TheVariants as declared_sign;
ghost use Rattle.yt_parser.specs.declared.cursor.Stop.TheVariants.{Memory};
ghost use Rattle.yt_grammar.specs.Lexemes.{Tok, digits, toks_of, lexeme_of, IsLexeme, AreTokens};
ghost use Rattle.yt_parser.specs.Inside.Signs.{lexeme_sign, sign_of, sign_is_key, sign_is_mark, sign_op, op_of_rank, place_next, IsSpan, AreSpans};
ghost use Rattle.yt_grammar.specs.Inside.Reading.{at_key, at_mark, at_word, at_number, key_reader, mark_reader, word_reader, number_reader, behind, op_at};
ghost use Rattle.yt_parser.specs.Inside.Results.{IsReading};

use std::alloc::{AllocError, Global};
use std::marker::Model;
use yt_grammar::{Keyword, Mark, op_rank};
use yt_graph::{Num, Op2, Place, Word};
use yt_lexer::{Token, TokenKind, Tokens};
use yt_list::Name;

/// What the first of the tokens that are left says.
#[derive(Clone, Copy, Debug, PartialEq, Eq)]
pub(crate) enum Sign {
    /// No token is left.
    End,
    /// A name.
    Word,
    /// A reserved word.
    Key(Keyword),
    /// A symbol.
    Mark(Mark),
    /// A number.
    Number(i64),
}

impl Sign {
    /// Whether it is a reserved word.
    fn is_key(self, key: Keyword) -> bool
        ensures { result ≡ sign_is_key key self }
    {
        match self {
            Sign::Key(next) => key.number() == next.number(),
            _ => false,
        }
    }

    /// Whether it is a symbol.
    fn is_mark(self, mark: Mark) -> bool
        ensures { result ≡ sign_is_mark mark self }
    {
        match self {
            Sign::Mark(next) => mark.number() == next.number(),
            _ => false,
        }
    }
}

impl Sign {
    /// The operator that it is.
    fn op(self) -> Option<Op2>
        ensures { result ≡ sign_op self }
    {
        match self {
            Sign::Key(Keyword::Or) => Some(Op2::Or),
            Sign::Key(Keyword::And) => Some(Op2::And),
            Sign::Mark(mark) => mark_op(mark),
            _ => None,
        }
    }
}

/// The operator of a symbol.
fn mark_op(mark: Mark) -> Option<Op2>
    ensures { result ≡ sign_op (declared_sign.Mark mark) }
{
    match mark {
        Mark::Less => Some(Op2::Lt),
        Mark::LessEqual => Some(Op2::Le),
        Mark::Greater => Some(Op2::Gt),
        Mark::GreaterEqual => Some(Op2::Ge),
        Mark::Equal => Some(Op2::Eq),
        Mark::NotEqual => Some(Op2::Ne),
        Mark::Plus => Some(Op2::Add),
        Mark::Minus => Some(Op2::Sub),
        Mark::Star => Some(Op2::Mul),
        Mark::Slash => Some(Op2::Div),
        Mark::Percent => Some(Op2::Rem),
        _ => None,
    }
}

/// The operator, where it binds just so loosely.
fn of_rank(op: Option<Op2>, rank: u32) -> Option<Op2>
    ensures { result ≡ op_of_rank rank op }
{
    op.filter(|op| op_rank(*op) == rank)
}

/// Why reading stopped.
#[derive(Clone, Copy, Debug, PartialEq, Eq)]
pub(crate) enum Stop {
    /// The first of the tokens that are left can't stand here.
    Syntax,
    /// Memory ran out.
    Memory,
}

impl From<AllocError> for Stop {
    ghost from_gives = { λ _ e. e ≡ Memory };

    fn from(_: AllocError) -> Self {
        Stop::Memory
    }
}

/// The tokens that are left, which a contract sees as the list of them.
#[derive(Drop)]
pub(crate) struct Cursor<'a> {
    text: &'a [u8],
    left: &'a [Token],
    sign: Sign,
}

impl<'a> Model for Cursor<'a> {
    ghost use Rattle.std.specs.Prelude.{◌≡◌, List};
    ghost use Rattle.yt_grammar.specs.Lexemes.{Tok, toks_of, AreTokens};
    ghost use Rattle.yt_parser.specs.Inside.Signs.{sign_of, AreSpans};

    ghost Value = { List Tok };

    ghost view = { λ c. toks_of c.text.now c.left.now };

    ghost invariant = { λ c. (c.sign ≡ sign_of (toks_of c.text.now c.left.now)) × (AreSpans c.text.now c.left.now × AreTokens (toks_of c.text.now c.left.now)) };
}

impl<'a> Cursor<'a> {
    /// In front of all tokens of a text.
    pub(crate) fn new(text: &'a [u8], tokens: &'a Tokens) -> Self
        requires spans { AreSpans text.now tokens.now }
        requires tokens { AreTokens (toks_of text.now tokens.now) }
        ensures { result ≡ toks_of text.now tokens.now }
    {
        let tokens = tokens.as_slice();
        Cursor {
            text,
            left: tokens,
            sign: sign_at(text, tokens),
        }
    }

    /// Whether no token is left.
    pub(crate) fn at_end(&self) -> bool
        ensures { result ≡ length self.now == 0 }
    {
        self.left.is_empty()
    }

    /// The place of the first token that is left, where there is one.
    pub(crate) fn place(&self) -> Option<Place>
        ensures { result ≡ place_next self.now }
    {
        self.left.first().map(|token| token.place)
    }

    /// Whether a reserved word comes next.
    pub(crate) fn at_key(&self, key: Keyword) -> bool
        ensures { result ≡ at_key key self.now }
    {
        self.sign.is_key(key)
    }

    /// Whether a symbol comes next.
    pub(crate) fn at_mark(&self, mark: Mark) -> bool
        ensures { result ≡ at_mark mark self.now }
    {
        self.sign.is_mark(mark)
    }

    /// Whether a name comes next.
    pub(crate) fn at_word(&self) -> bool
        ensures { result ≡ at_word self.now }
    {
        self.sign == Sign::Word
    }

    /// Whether a number comes next.
    pub(crate) fn at_number(&self) -> bool
        ensures { result ≡ at_number self.now }
    {
        matches!(self.sign, Sign::Number(_))
    }

    /// Goes behind a reserved word.
    pub(crate) fn key(&mut self, key: Keyword) -> Result<(), Stop>
        ensures read { IsReading (λ u. u) (key_reader key self.old) result self.new }
        ensures less { IfOk result (λ _. length self.new < length self.old) }
    {
        if !self.at_key(key) {
            return Err(Stop::Syntax);
        }
        self.advance();
        Ok(())
    }

    /// Goes behind a symbol.
    pub(crate) fn mark(&mut self, mark: Mark) -> Result<(), Stop>
        ensures read { IsReading (λ u. u) (mark_reader mark self.old) result self.new }
        ensures less { IfOk result (λ _. length self.new < length self.old) }
    {
        if !self.at_mark(mark) {
            return Err(Stop::Syntax);
        }
        self.advance();
        Ok(())
    }

    /// Takes a number.
    pub(crate) fn number(&mut self) -> Result<Num, Stop>
        ensures read { IsReading (λ n. n) (number_reader self.old) result self.new }
        ensures natural { IfOk result (λ n. IsLexeme (digits n.value)) }
        ensures less { IfOk result (λ _. length self.new < length self.old) }
    {
        let Sign::Number(value) = self.sign else {
            return Err(Stop::Syntax);
        };
        let [token, ..] = self.left else {
            return Err(Stop::Syntax);
        };
        let place = token.place;
        self.advance();
        Ok(Num { value, place })
    }

    /// Takes a name.
    pub(crate) fn word(&mut self, alloc: Global) -> Result<Word, Stop>
        ensures read { IsReading (λ w. w) (word_reader self.old) result self.new }
        ensures less { IfOk result (λ _. length self.new < length self.old) }
    {
        if !self.at_word() {
            return Err(Stop::Syntax);
        }
        let [token, ..] = self.left else {
            return Err(Stop::Syntax);
        };
        let bytes = &self.text[token.from as usize..token.to as usize];
        let text = Name::from_vec(Vec::from_slice(alloc, bytes)?);
        let place = token.place;
        self.advance();
        Ok(Word { text, place })
    }

    /// The operator that comes next, where it binds just so loosely.
    pub(crate) fn op_at(&self, rank: u32) -> Option<Op2>
        ensures { result ≡ op_at rank self.now }
    {
        of_rank(self.sign.op(), rank)
    }

    /// Goes behind the next token, where there is one.
    pub(crate) fn advance(&mut self)
        ensures step { self.new ≡ behind self.old }
    {
        if let [_, rest @ ..] = self.left {
            self.left = rest;
            self.sign = sign_at(self.text, rest);
        }
    }
}

/// What the first of the tokens says.
fn sign_at(text: &[u8], tokens: &[Token]) -> Sign
    requires { AreSpans text.now tokens.now }
    ensures { result ≡ sign_of (toks_of text.now tokens.now) }
{
    match tokens {
        [] => Sign::End,
        [token, ..] => token_sign(text, token),
    }
}

/// What a token says.
fn token_sign(text: &[u8], token: &Token) -> Sign
    requires { IsSpan text.now token.now }
    ensures { result ≡ lexeme_sign (lexeme_of token.now.kind (take (token.now.to - token.now.from) (drop token.now.from text.now))) }
{
    let bytes = &text[token.from as usize..token.to as usize];
    match token.kind {
        TokenKind::Word => Sign::Word,
        TokenKind::Key => Sign::Key(Keyword::of(bytes)),
        TokenKind::Number(n) => Sign::Number(n),
        TokenKind::Symbol => Sign::Mark(Mark::of(bytes)),
    }
}
