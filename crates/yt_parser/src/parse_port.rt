//! Reading ports.

ghost use Rattle.std.specs.Prelude.{◌<◌, ◌≤◌, map, length, IfOk};
ghost use Rattle.yt_graph.specs.AstPicture.{port_decl_tree};
ghost use Rattle.yt_grammar.specs.declared.sign.Keyword.TheVariants as keys;
ghost use Rattle.yt_grammar.specs.declared.sign.Mark.TheVariants.{Comma};
ghost use Rattle.yt_grammar.specs.Inside.Reading.{behind_mark, at_key, many, one_or_more, word_reader, source_reader, out_reader, params_reader, port_reader};
ghost use Rattle.yt_parser.specs.Inside.Results.{IsReading};
ghost use Rattle.yt_grammar.specs.Inside.Parts.{every_reader, param_list_reader};

use crate::cursor::{Cursor, Stop};
use crate::parse_item::{path, width};
use crate::parse_stmt::block;
use std::alloc::Global;
use yt_grammar::{Keyword, MOST_BLOCK_DEPTH, Mark};
use yt_graph::{Num, OutDecl, OutDecls, PortDecl, PortDecls, Source, Word, Words};

/// Ports, as many as there are.
pub(crate) fn ports(cursor: &mut Cursor<'_>, alloc: Global) -> Result<PortDecls, Stop>
    ensures read { IsReading (map port_decl_tree) (many (at_key keys.Port) port_reader cursor.old) result cursor.new }
    ensures less { IfOk result (λ _. length cursor.new ≤ length cursor.old) }
{
    let mut ports = PortDecls::new(alloc);
    'ports: while cursor.at_key(Keyword::Port) {
        let decl = port(cursor, alloc)?;
        ports.push(decl)?;
    }
    Ok(ports)
}

/// A port.
fn port(cursor: &mut Cursor<'_>, alloc: Global) -> Result<PortDecl, Stop>
    ensures read { IsReading port_decl_tree (port_reader cursor.old) result cursor.new }
    ensures less { IfOk result (λ _. length cursor.new < length cursor.old) }
{
    cursor.key(Keyword::Port)?;
    let name = cursor.word(alloc)?;
    cursor.key(Keyword::From)?;
    let source = source(cursor, alloc)?;
    let params = params(cursor, alloc)?;
    let outs = outs(cursor, alloc)?;
    let body = block(cursor, alloc, MOST_BLOCK_DEPTH)?;
    Ok(PortDecl {
        name,
        source,
        params,
        outs,
        body,
    })
}

/// What a port gets its messages from.
fn source(cursor: &mut Cursor<'_>, alloc: Global) -> Result<Source, Stop>
    ensures read { IsReading (λ s. s) (source_reader cursor.old) result cursor.new }
    ensures less { IfOk result (λ _. length cursor.new < length cursor.old) }
{
    let first = cursor.word(alloc)?;
    if cursor.at_mark(Mark::Dot) {
        let path = path(cursor, alloc, first)?;
        return Ok(Source::Out(path));
    }
    Ok(Source::Input(first))
}

/// The names of a port's parameters, in parentheses.
fn params(cursor: &mut Cursor<'_>, alloc: Global) -> Result<Words, Stop>
    ensures read { IsReading (λ w. w) (params_reader cursor.old) result cursor.new }
    ensures less { IfOk result (λ _. length cursor.new < length cursor.old) }
{
    cursor.mark(Mark::LeftParen)?;
    let names = param_list(cursor, alloc)?;
    cursor.mark(Mark::RightParen)?;
    Ok(names)
}

/// The names of a port's parameters.
fn param_list(cursor: &mut Cursor<'_>, alloc: Global) -> Result<Words, Stop>
    ensures read { IsReading (λ w. w) (param_list_reader cursor.old) result cursor.new }
    ensures less { IfOk result (λ _. length cursor.new ≤ length cursor.old) }
{
    if cursor.at_mark(Mark::RightParen) {
        return Ok(Words::new(alloc));
    }
    words(cursor, alloc)
}

/// Names with commas between them.
fn words(cursor: &mut Cursor<'_>, alloc: Global) -> Result<Words, Stop>
    ensures read { IsReading (λ w. w) (one_or_more word_reader cursor.old) result cursor.new }
    ensures less { IfOk result (λ _. length cursor.new < length cursor.old) }
{
    let mut words = Words::new(alloc);
    let first = cursor.word(alloc)?;
    words.push(first)?;
    'words: while cursor.at_mark(Mark::Comma) {
        let next = next_word(cursor, alloc)?;
        words.push(next)?;
    }
    Ok(words)
}

/// A name behind a comma.
fn next_word(cursor: &mut Cursor<'_>, alloc: Global) -> Result<Word, Stop>
    ensures read { IsReading (λ w. w) (behind_mark Comma word_reader cursor.old) result cursor.new }
    ensures less { IfOk result (λ _. length cursor.new < length cursor.old) }
{
    cursor.mark(Mark::Comma)?;
    let word = cursor.word(alloc)?;
    Ok(word)
}

/// Outs, as many as there are.
fn outs(cursor: &mut Cursor<'_>, alloc: Global) -> Result<OutDecls, Stop>
    ensures read { IsReading (λ o. o) (many (at_key keys.Out) out_reader cursor.old) result cursor.new }
    ensures less { IfOk result (λ _. length cursor.new ≤ length cursor.old) }
{
    let mut outs = OutDecls::new(alloc);
    'outs: while cursor.at_key(Keyword::Out) {
        let decl = out(cursor, alloc)?;
        outs.push(decl)?;
    }
    Ok(outs)
}

/// An out.
fn out(cursor: &mut Cursor<'_>, alloc: Global) -> Result<OutDecl, Stop>
    ensures read { IsReading (λ o. o) (out_reader cursor.old) result cursor.new }
    ensures less { IfOk result (λ _. length cursor.new < length cursor.old) }
{
    cursor.key(Keyword::Out)?;
    let name = cursor.word(alloc)?;
    let width = width(cursor)?;
    let every = every(cursor)?;
    Ok(OutDecl { name, width, every })
}

/// Every how many jobs messages pass, where it is written.
fn every(cursor: &mut Cursor<'_>) -> Result<Option<Num>, Stop>
    ensures read { IsReading (λ m. m) (every_reader cursor.old) result cursor.new }
    ensures less { IfOk result (λ _. length cursor.new ≤ length cursor.old) }
{
    if !cursor.at_key(Keyword::Every) {
        return Ok(None);
    }
    cursor.key(Keyword::Every)?;
    Ok(Some(cursor.number()?))
}
