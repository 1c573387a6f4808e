//! From the tokens of a text to the tree that they spell.

ghost use Rattle.std.specs.Prelude.{◌≡◌, ◌≤◌, None, length, List, IfOk, IfErr};
ghost use Rattle.yt_graph.specs.AstPicture.{ItemTree, ast_tree};
ghost use Rattle.yt_graph.specs.AstWellFormed.{IsWritable};
ghost use Rattle.yt_base.specs.Limits.{most_text_bytes};
ghost use Rattle.yt_lexer.specs.Lexes.{Lexes};
ghost use Rattle.yt_grammar.specs.Lexemes.{toks_of};
ghost use Rattle.yt_grammar.specs.Grammar.{Spells};
ghost use Rattle.yt_parser.specs.Parses.{IsParseFault, GivesTree};

use crate::cursor::{Cursor, Stop};
use crate::parse_item::graph;
use std::alloc::Global;
use yt_graph::{Ast, Place};
use yt_lexer::{Tokens, end_place};

/// Why tokens have no tree.
#[derive(Clone, Copy, Debug, PartialEq, Eq)]
pub enum ParseFault {
    /// No tree goes on with the token at this place, or none ends where the text does.
    Syntax(Place),
    /// Memory for the tree ran out.
    Memory,
}

/// The tree that the tokens of a text spell, or the first token that no tree goes on with.
///
/// The text has at most 16,777,216 bytes, and the tokens are those that [`yt_lexer::lex`] gives for it. `Syntax` comes
/// exactly where the tokens spell no tree, unless memory runs out; its place is that of the end of the text where all
/// tokens are the front of some that spell a tree.
pub fn parse(alloc: Global, text: &[u8], tokens: &Tokens) -> Result<Ast, ParseFault>
    requires short { length text.now ≤ most_text_bytes }
    requires tokens { Lexes text.now 0 tokens.now None }

    // The tokens spell the tree.
    ensures ok { IfOk result (λ ast. Spells (toks_of text.now tokens.now) (ast_tree ast)) }

    // The tree can be written: its names are words, its numbers have no sign, and no depth is past its limit.
    ensures writable { IfOk result (λ ast. IsWritable (ast_tree ast)) }

    // A fault is at the first token that no tree goes on with.
    ensures err { IfErr result (λ fault. IsParseFault text.now (toks_of text.now tokens.now) fault) }

    // The tokens spell no other tree.
    ensures only { (items : List ItemTree) → Spells (toks_of text.now tokens.now) items → GivesTree result items }
{
    let mut cursor = Cursor::new(text, tokens);
    match graph(&mut cursor, alloc) {
        Ok(ast) => Ok(ast),
        Err(Stop::Memory) => Err(ParseFault::Memory),
        Err(Stop::Syntax) => match cursor.place() {
            Some(place) => Err(ParseFault::Syntax(place)),
            None => Err(ParseFault::Syntax(end_place(text))),
        },
    }
}
