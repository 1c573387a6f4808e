//! Reading the parts of a graph.

ghost use Rattle.std.specs.Prelude.{◌≡◌, ◌<◌, ◌≤◌, map, length, IfOk};
ghost use Rattle.yt_graph.specs.AstPicture.{item_tree, ast_tree, port_decl_tree};
ghost use Rattle.yt_grammar.specs.declared.sign.Keyword.TheVariants as keys;
ghost use Rattle.yt_grammar.specs.Inside.Reading.{in_parens, at_key, many, number_reader, path_reader, start_reader, var_reader, at_item, item_reader, graph_reader};
ghost use Rattle.yt_parser.specs.Inside.Results.{IsReading};
ghost use Rattle.yt_grammar.specs.Inside.Parts.{input_reader, output_reader, resource_reader, inside_reader, process_reader};

use crate::cursor::{Cursor, Stop};
use crate::parse_port::ports;
use std::alloc::Global;
use yt_grammar::{Keyword, Mark};
use yt_graph::{Ast, Item, Num, Path, VarDecl, VarDecls, Word};
use yt_list::Items;

/// A graph: parts, and nothing behind them.
pub(crate) fn graph(cursor: &mut Cursor<'_>, alloc: Global) -> Result<Ast, Stop>
    ensures read { IsReading ast_tree (graph_reader cursor.old) result cursor.new }
{
    let items = items(cursor, alloc)?;
    if !cursor.at_end() {
        return Err(Stop::Syntax);
    }
    Ok(Ast { items })
}

/// Parts of a graph, as many as there are.
fn items(cursor: &mut Cursor<'_>, alloc: Global) -> Result<Items<Item>, Stop>
    ensures read { IsReading (map item_tree) (many at_item item_reader cursor.old) result cursor.new }
{
    let mut items = Items::<Item>::new(alloc);
    'items: while at_item(cursor) {
        let next = item(cursor, alloc)?;
        items.push(next)?;
    }
    Ok(items)
}

/// Whether a part of a graph begins here.
fn at_item(cursor: &Cursor<'_>) -> bool
    ensures { result ≡ at_item cursor.now }
{
    cursor.at_key(Keyword::Input)
        || cursor.at_key(Keyword::Output)
        || cursor.at_key(Keyword::Resource)
        || cursor.at_key(Keyword::Process)
}

/// A part of a graph.
fn item(cursor: &mut Cursor<'_>, alloc: Global) -> Result<Item, Stop>
    ensures read { IsReading item_tree (item_reader cursor.old) result cursor.new }
    ensures less { IfOk result (λ _. length cursor.new < length cursor.old) }
{
    if cursor.at_key(Keyword::Input) {
        return input(cursor, alloc);
    }
    if cursor.at_key(Keyword::Output) {
        return output(cursor, alloc);
    }
    if cursor.at_key(Keyword::Resource) {
        return resource(cursor, alloc);
    }
    process(cursor, alloc)
}

/// An input.
fn input(cursor: &mut Cursor<'_>, alloc: Global) -> Result<Item, Stop>
    ensures read { IsReading item_tree (input_reader cursor.old) result cursor.new }
    ensures less { IfOk result (λ _. length cursor.new < length cursor.old) }
{
    cursor.key(Keyword::Input)?;
    let name = cursor.word(alloc)?;
    let width = width(cursor)?;
    cursor.key(Keyword::Period)?;
    let period = cursor.number()?;
    Ok(Item::Input {
        name,
        width,
        period,
    })
}

/// A number in parentheses.
pub(crate) fn width(cursor: &mut Cursor<'_>) -> Result<Num, Stop>
    ensures read { IsReading (λ n. n) (in_parens number_reader cursor.old) result cursor.new }
    ensures less { IfOk result (λ _. length cursor.new < length cursor.old) }
{
    cursor.mark(Mark::LeftParen)?;
    let width = cursor.number()?;
    cursor.mark(Mark::RightParen)?;
    Ok(width)
}

/// An output.
fn output(cursor: &mut Cursor<'_>, alloc: Global) -> Result<Item, Stop>
    ensures read { IsReading item_tree (output_reader cursor.old) result cursor.new }
    ensures less { IfOk result (λ _. length cursor.new < length cursor.old) }
{
    cursor.key(Keyword::Output)?;
    let name = cursor.word(alloc)?;
    cursor.key(Keyword::From)?;
    let process = cursor.word(alloc)?;
    let path = path(cursor, alloc, process)?;
    Ok(Item::Output { name, path })
}

/// What names an out from anywhere, behind its first word.
pub(crate) fn path(cursor: &mut Cursor<'_>, alloc: Global, process: Word) -> Result<Path, Stop>
    ensures read { IsReading (λ p. p) (path_reader process cursor.old) result cursor.new }
    ensures less { IfOk result (λ _. length cursor.new < length cursor.old) }
{
    cursor.mark(Mark::Dot)?;
    let port = cursor.word(alloc)?;
    cursor.mark(Mark::Dot)?;
    let out = cursor.word(alloc)?;
    Ok(Path { process, port, out })
}

/// A resource.
fn resource(cursor: &mut Cursor<'_>, alloc: Global) -> Result<Item, Stop>
    ensures read { IsReading item_tree (resource_reader cursor.old) result cursor.new }
    ensures less { IfOk result (λ _. length cursor.new < length cursor.old) }
{
    cursor.key(Keyword::Resource)?;
    let name = cursor.word(alloc)?;
    Ok(Item::Resource { name })
}

/// A process.
fn process(cursor: &mut Cursor<'_>, alloc: Global) -> Result<Item, Stop>
    ensures read { IsReading item_tree (process_reader cursor.old) result cursor.new }
    ensures less { IfOk result (λ _. length cursor.new < length cursor.old) }
{
    cursor.key(Keyword::Process)?;
    let name = cursor.word(alloc)?;
    let inside = inside(cursor, alloc)?;
    cursor.mark(Mark::LeftBrace)?;
    let vars = vars(cursor, alloc)?;
    let ports = ports(cursor, alloc)?;
    cursor.mark(Mark::RightBrace)?;
    Ok(Item::Process {
        name,
        inside,
        vars,
        ports,
    })
}

/// The resource that a process is in, where one is written.
fn inside(cursor: &mut Cursor<'_>, alloc: Global) -> Result<Option<Word>, Stop>
    ensures read { IsReading (λ w. w) (inside_reader cursor.old) result cursor.new }
    ensures less { IfOk result (λ _. length cursor.new ≤ length cursor.old) }
{
    if !cursor.at_key(Keyword::In) {
        return Ok(None);
    }
    cursor.key(Keyword::In)?;
    Ok(Some(cursor.word(alloc)?))
}

/// Variables, as many as there are.
fn vars(cursor: &mut Cursor<'_>, alloc: Global) -> Result<VarDecls, Stop>
    ensures read { IsReading (λ v. v) (many (at_key keys.Var) var_reader cursor.old) result cursor.new }
    ensures less { IfOk result (λ _. length cursor.new ≤ length cursor.old) }
{
    let mut vars = VarDecls::new(alloc);
    'vars: while cursor.at_key(Keyword::Var) {
        let decl = var(cursor, alloc)?;
        vars.push(decl)?;
    }
    Ok(vars)
}

/// A variable.
fn var(cursor: &mut Cursor<'_>, alloc: Global) -> Result<VarDecl, Stop>
    ensures read { IsReading (λ v. v) (var_reader cursor.old) result cursor.new }
    ensures less { IfOk result (λ _. length cursor.new < length cursor.old) }
{
    cursor.key(Keyword::Var)?;
    let name = cursor.word(alloc)?;
    cursor.mark(Mark::Assign)?;
    let start = start(cursor)?;
    Ok(VarDecl { name, start })
}

/// A start value.
fn start(cursor: &mut Cursor<'_>) -> Result<i64, Stop>
    ensures read { IsReading (λ n. n) (start_reader cursor.old) result cursor.new }
    ensures less { IfOk result (λ _. length cursor.new < length cursor.old) }
{
    if cursor.at_mark(Mark::Minus) {
        cursor.mark(Mark::Minus)?;
        let n = cursor.number()?;
        return Ok(-n.value);
    }
    let n = cursor.number()?;
    Ok(n.value)
}
