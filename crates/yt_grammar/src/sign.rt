//! Reserved words and symbols, each by a name of its own.

ghost use Rattle.std.specs.Prelude.{◌≡◌};
ghost use Rattle.yt_grammar.specs.Lexemes.{keyword_text, mark_text, keyword_number, mark_number, first_keyword, first_mark, keyword_of, mark_of};

/// A reserved word.
#[derive(Clone, Copy, Debug, PartialEq, Eq)]
pub enum Keyword {
    /// `input`
    Input,
    /// `output`
    Output,
    /// `resource`
    Resource,
    /// `process`
    Process,
    /// `in`
    In,
    /// `var`
    Var,
    /// `port`
    Port,
    /// `from`
    From,
    /// `out`
    Out,
    /// `every`
    Every,
    /// `period`
    Period,
    /// `let`
    Let,
    /// `send`
    Send,
    /// `if`
    If,
    /// `else`
    Else,
    /// `repeat`
    Repeat,
    /// `max`
    Max,
    /// `and`
    And,
    /// `or`
    Or,
    /// `not`
    Not,
    /// `burst`
    Burst,
    /// `within`
    Within,
    /// `native`
    Native,
    /// `cost`
    Cost,
    /// `node`
    Node,
    /// `link`
    Link,
    /// `delay`
    Delay,
}

/// All reserved words.
const KEYWORDS: [Keyword; 27] = [
    Keyword::Input,
    Keyword::Output,
    Keyword::Resource,
    Keyword::Process,
    Keyword::In,
    Keyword::Var,
    Keyword::Port,
    Keyword::From,
    Keyword::Out,
    Keyword::Every,
    Keyword::Period,
    Keyword::Let,
    Keyword::Send,
    Keyword::If,
    Keyword::Else,
    Keyword::Repeat,
    Keyword::Max,
    Keyword::And,
    Keyword::Or,
    Keyword::Not,
    Keyword::Burst,
    Keyword::Within,
    Keyword::Native,
    Keyword::Cost,
    Keyword::Node,
    Keyword::Link,
    Keyword::Delay,
];

impl Keyword {
    /// The reserved word of these bytes.
    pub fn of(bytes: &[u8]) -> Self
        ensures { result ≡ keyword_of bytes.now }
    {
        first_keyword(&KEYWORDS, bytes)
    }

    /// Its number among the reserved words, from 0.
    pub fn number(self) -> u8
        ensures { result ≡ keyword_number self }
    {
        self as u8
    }

    /// Its bytes.
    pub fn text(self) -> &'static [u8]
        ensures { result.now ≡ keyword_text self }
    {
        match self {
            Keyword::Input => b"input",
            Keyword::Output => b"output",
            Keyword::Resource => b"resource",
            Keyword::Process => b"process",
            Keyword::In => b"in",
            Keyword::Var => b"var",
            Keyword::Port => b"port",
            Keyword::From => b"from",
            Keyword::Out => b"out",
            Keyword::Every => b"every",
            Keyword::Period => b"period",
            Keyword::Let => b"let",
            Keyword::Send => b"send",
            Keyword::If => b"if",
            Keyword::Else => b"else",
            Keyword::Repeat => b"repeat",
            Keyword::Max => b"max",
            Keyword::And => b"and",
            Keyword::Or => b"or",
            Keyword::Not => b"not",
            Keyword::Burst => b"burst",
            Keyword::Within => b"within",
            Keyword::Native => b"native",
            Keyword::Cost => b"cost",
            Keyword::Node => b"node",
            Keyword::Link => b"link",
            Keyword::Delay => b"delay",
        }
    }
}

/// The first of these reserved words that has these bytes; the last one of all where there is none.
fn first_keyword(keywords: &[Keyword], bytes: &[u8]) -> Keyword
    ensures { result ≡ first_keyword keywords.now bytes.now }
{
    for keyword in keywords {
        if keyword.text() == bytes {
            return *keyword;
        }
    }
    Keyword::Delay
}

/// A symbol of one byte or two.
#[derive(Clone, Copy, Debug, PartialEq, Eq)]
pub enum Mark {
    /// `{`
    LeftBrace,
    /// `}`
    RightBrace,
    /// `(`
    LeftParen,
    /// `)`
    RightParen,
    /// `,`
    Comma,
    /// `.`
    Dot,
    /// `=`
    Assign,
    /// `+`
    Plus,
    /// `-`
    Minus,
    /// `*`
    Star,
    /// `/`
    Slash,
    /// `%`
    Percent,
    /// `<`
    Less,
    /// `<=`
    LessEqual,
    /// `>`
    Greater,
    /// `>=`
    GreaterEqual,
    /// `==`
    Equal,
    /// `!=`
    NotEqual,
}

/// All symbols.
const MARKS: [Mark; 18] = [
    Mark::LeftBrace,
    Mark::RightBrace,
    Mark::LeftParen,
    Mark::RightParen,
    Mark::Comma,
    Mark::Dot,
    Mark::Assign,
    Mark::Plus,
    Mark::Minus,
    Mark::Star,
    Mark::Slash,
    Mark::Percent,
    Mark::Less,
    Mark::LessEqual,
    Mark::Greater,
    Mark::GreaterEqual,
    Mark::Equal,
    Mark::NotEqual,
];

impl Mark {
    /// The symbol of these bytes.
    pub fn of(bytes: &[u8]) -> Self
        ensures { result ≡ mark_of bytes.now }
    {
        first_mark(&MARKS, bytes)
    }

    /// Its number among the symbols, from 0.
    pub fn number(self) -> u8
        ensures { result ≡ mark_number self }
    {
        self as u8
    }

    /// Its bytes.
    pub fn text(self) -> &'static [u8]
        ensures { result.now ≡ mark_text self }
    {
        match self {
            Mark::LeftBrace => b"{",
            Mark::RightBrace => b"}",
            Mark::LeftParen => b"(",
            Mark::RightParen => b")",
            Mark::Comma => b",",
            Mark::Dot => b".",
            Mark::Assign => b"=",
            Mark::Plus => b"+",
            Mark::Minus => b"-",
            Mark::Star => b"*",
            Mark::Slash => b"/",
            Mark::Percent => b"%",
            Mark::Less => b"<",
            Mark::LessEqual => b"<=",
            Mark::Greater => b">",
            Mark::GreaterEqual => b">=",
            Mark::Equal => b"==",
            Mark::NotEqual => b"!=",
        }
    }
}

/// The first of these symbols that has these bytes; the last one of all where there is none.
fn first_mark(marks: &[Mark], bytes: &[u8]) -> Mark
    ensures { result ≡ first_mark marks.now bytes.now }
{
    for mark in marks {
        if mark.text() == bytes {
            return *mark;
        }
    }
    Mark::NotEqual
}
