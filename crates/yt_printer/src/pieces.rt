//! Pieces of a text: names, and the spaces in front of a line.

ghost use Rattle.std.specs.Prelude.{◌≡◌, ◌++◌, OnOk};
ghost use Rattle.yt_grammar.specs.CanonicalText.{indent_text};

use std::alloc::AllocError;
use yt_base::Text;
use yt_graph::Word;

/// Adds a name. `Err` comes where memory ran out.
pub(crate) fn put_word(out: &mut Text, word: &Word) -> Result<(), AllocError>
    ensures { OnOk result (out.new ≡ out.old ++ word.now.text) }
{
    out.put(word.text.as_slice())
}

/// Adds two spaces for each of so many braces. `Err` comes where memory ran out.
pub(crate) fn put_indent(out: &mut Text, braces: usize) -> Result<(), AllocError>
    ensures { OnOk result (out.new ≡ out.old ++ indent_text braces) }
{
    for _ in 0..braces {
        out.put(b"  ")?;
    }
    Ok(())
}
