//! Words that name nothing.

ghost use Rattle.std.specs.Prelude.{◌≡◌};
ghost use Rattle.yt_graph.specs.Reserved.{is_reserved};

/// The words that name nothing.
const RESERVED: [&[u8]; 27] = [
    b"input",
    b"output",
    b"resource",
    b"process",
    b"in",
    b"var",
    b"port",
    b"from",
    b"out",
    b"every",
    b"period",
    b"let",
    b"send",
    b"if",
    b"else",
    b"repeat",
    b"max",
    b"and",
    b"or",
    b"not",
    b"burst",
    b"within",
    b"native",
    b"cost",
    b"node",
    b"link",
    b"delay",
];

/// Whether a word is reserved, so that it names nothing.
pub fn reserved(word: &[u8]) -> bool
    ensures { result ≡ is_reserved word.now }
{
    RESERVED.iter().any(|reserved| *reserved == word)
}
