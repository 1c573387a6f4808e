//! Laws of the grammar.

ghost use Rattle.std.specs.Prelude.{◌≡◌, map};
ghost use Rattle.yt_graph.specs.Reserved.{reserved_words};
ghost use Rattle.yt_grammar.specs.Grammar.{SpellsOneTree, SpelledIsWritable};
ghost use Rattle.yt_grammar.specs.Lexemes.{all_keywords, keyword_text};

/// No tokens spell two trees.
pub fn one_tree()
    ensures { SpellsOneTree }
{}

/// A tree that tokens spell can be written: its names are words, its numbers have no sign, and no depth is past its limit.
pub fn spelled_is_writable()
    ensures { SpelledIsWritable }
{}

/// Each reserved word is one by a name of its own, and no other is.
pub fn keywords_are_reserved()
    ensures { map keyword_text all_keywords ≡ reserved_words }
{}
