//! The canonical text of a graph.

ghost use Rattle.std.specs.Prelude.{◌≡◌, ◌++◌, codes, map, true, OnOk, IfOk};
ghost use Rattle.std.specs.Fmt.{signed_decimal};
ghost use Rattle.std.specs.List.{flat_map, list_all};
ghost use Rattle.yt_graph.specs.AstPicture.{port_decl_tree, item_tree, ast_tree};
ghost use Rattle.yt_grammar.specs.Writable.{is_port, is_item};
ghost use Rattle.yt_grammar.specs.SamePlaces.{IsWritten, ReadsAs};
ghost use Rattle.yt_grammar.specs.CanonicalText.{every_layout, head_layout, inside_layout, item_layout, out_layout, params_layout, path_layout, port_layout, source_layout, start_layout, text_of, var_layout, canonical_text};

use crate::pieces::put_word;
use crate::print_stmt::print_block;
use std::alloc::{AllocError, Global};
use yt_base::Text;
use yt_graph::{Ast, Item, Num, OutDecl, Path, PortDecl, Source, VarDecl, Word};

/// The canonical text of a graph that can be written: it is read as the same graph. `Err` comes where memory ran out.
pub fn print_graph(alloc: Global, ast: &Ast) -> Result<Text, AllocError>
    requires { IsWritten (ast_tree ast.now) }

    // The bytes are the canonical text.
    ensures text { IfOk result (λ text. text ≡ canonical_text (ast_tree ast.now)) }

    // That text has no fault, and its tokens spell the same tree but for places.
    ensures read { IfOk result (λ text. ReadsAs text (ast_tree ast.now)) }
{
    let mut out = Text::new(alloc);
    for item in ast.items.as_slice() {
        print_item(&mut out, item)?;
    }
    Ok(out)
}

/// Adds the lines of a part of a graph.
fn print_item(out: &mut Text, item: &Item) -> Result<(), AllocError>
    requires { is_item (item_tree item.now) ≡ true }
    ensures { OnOk result (out.new ≡ out.old ++ text_of (item_layout (item_tree item.now))) }
{
    match item {
        Item::Input {
            name,
            width,
            period,
        } => {
            out.put(b"input ")?;
            put_word(out, name)?;
            print_width(out, *width)?;
            out.put(b" period ")?;
            out.put_i64(period.value)?;
            out.put(b"\n")
        }
        Item::Output { name, path } => {
            out.put(b"output ")?;
            put_word(out, name)?;
            out.put(b" from ")?;
            print_path(out, path)?;
            out.put(b"\n")
        }
        Item::Resource { name } => {
            out.put(b"resource ")?;
            put_word(out, name)?;
            out.put(b"\n")
        }
        Item::Process {
            name,
            inside,
            vars,
            ports,
        } => {
            out.put(b"process ")?;
            put_word(out, name)?;
            print_inside(out, inside)?;
            out.put(b" {\n")?;
            print_vars(out, vars.as_slice())?;
            print_ports(out, ports.as_slice())?;
            out.put(b"}\n")
        }
    }
}

/// Adds the resource that a process is in, where it is written.
fn print_inside(out: &mut Text, inside: &Option<Word>) -> Result<(), AllocError>
    ensures { OnOk result (out.new ≡ out.old ++ text_of (inside_layout inside.now)) }
{
    match inside {
        None => Ok(()),
        Some(word) => {
            out.put(b" in ")?;
            put_word(out, word)
        }
    }
}

/// Adds the lines of variables.
fn print_vars(out: &mut Text, vars: &[VarDecl]) -> Result<(), AllocError>
    ensures { OnOk result (out.new ≡ out.old ++ text_of (flat_map var_layout vars.now)) }
{
    for var in vars {
        print_var(out, var)?;
    }
    Ok(())
}

/// Adds the line of a variable.
fn print_var(out: &mut Text, var: &VarDecl) -> Result<(), AllocError>
    ensures { OnOk result (out.new ≡ out.old ++ text_of (var_layout var.now)) }
{
    out.put(b"  var ")?;
    put_word(out, &var.name)?;
    out.put(b" = ")?;
    print_start(out, var.start)?;
    out.put(b"\n")
}

/// Adds a start value.
fn print_start(out: &mut Text, start: i64) -> Result<(), AllocError>
    ensures { OnOk result (out.new ≡ out.old ++ text_of (start_layout start)) }
{
    out.put_i64(start)
}

/// Adds the lines of ports.
fn print_ports(out: &mut Text, ports: &[PortDecl]) -> Result<(), AllocError>
    requires { list_all is_port (map port_decl_tree ports.now) ≡ true }
    ensures { OnOk result (out.new ≡ out.old ++ text_of (flat_map port_layout (map port_decl_tree ports.now))) }
{
    for port in ports {
        print_port(out, port)?;
    }
    Ok(())
}

/// Adds the lines of a port.
fn print_port(out: &mut Text, port: &PortDecl) -> Result<(), AllocError>
    requires { is_port (port_decl_tree port.now) ≡ true }
    ensures { OnOk result (out.new ≡ out.old ++ text_of (port_layout (port_decl_tree port.now))) }
{
    print_head(out, port)?;
    print_outs(out, port.outs.as_slice())?;
    out.put(b" ")?;
    print_block(out, 1, &port.body)?;
    out.put(b"\n")
}

/// Adds what stands in front of a port's outs.
fn print_head(out: &mut Text, port: &PortDecl) -> Result<(), AllocError>
    ensures { OnOk result (out.new ≡ out.old ++ text_of (head_layout (port_decl_tree port.now))) }
{
    out.put(b"  port ")?;
    put_word(out, &port.name)?;
    out.put(b" from ")?;
    print_source(out, &port.source)?;
    out.put(b" (")?;
    print_params(out, port.params.as_slice())?;
    out.put(b")")
}

/// Adds what a port gets its messages from.
fn print_source(out: &mut Text, source: &Source) -> Result<(), AllocError>
    ensures { OnOk result (out.new ≡ out.old ++ text_of (source_layout source.now)) }
{
    match source {
        Source::Input(word) => put_word(out, word),
        Source::Out(path) => print_path(out, path),
    }
}

/// Adds what names an out from anywhere.
fn print_path(out: &mut Text, path: &Path) -> Result<(), AllocError>
    ensures { OnOk result (out.new ≡ out.old ++ text_of (path_layout path.now)) }
{
    put_word(out, &path.process)?;
    out.put(b".")?;
    put_word(out, &path.port)?;
    out.put(b".")?;
    put_word(out, &path.out)
}

/// Adds parameters, with a comma and a space between them.
fn print_params(out: &mut Text, params: &[Word]) -> Result<(), AllocError>
    ensures { OnOk result (out.new ≡ out.old ++ text_of (params_layout params.now)) }
{
    let [first, rest @ ..] = params else {
        return Ok(());
    };
    put_word(out, first)?;
    for param in rest {
        out.put(b", ")?;
        put_word(out, param)?;
    }
    Ok(())
}

/// Adds outs, each behind a space.
fn print_outs(out: &mut Text, outs: &[OutDecl]) -> Result<(), AllocError>
    ensures { OnOk result (out.new ≡ out.old ++ text_of (flat_map out_layout outs.now)) }
{
    for decl in outs {
        print_out(out, decl)?;
    }
    Ok(())
}

/// Adds an out behind a space.
fn print_out(out: &mut Text, decl: &OutDecl) -> Result<(), AllocError>
    ensures { OnOk result (out.new ≡ out.old ++ text_of (out_layout decl.now)) }
{
    out.put(b" out ")?;
    put_word(out, &decl.name)?;
    print_width(out, decl.width)?;
    print_every(out, decl.every)
}

/// Adds how many numbers a message has, in parentheses.
fn print_width(out: &mut Text, width: Num) -> Result<(), AllocError>
    ensures { OnOk result (out.new ≡ out.old ++ codes "(" ++ signed_decimal width.value ++ codes ")") }
{
    out.put(b"(")?;
    out.put_i64(width.value)?;
    out.put(b")")
}

/// Adds every how many jobs messages pass, where it is written.
fn print_every(out: &mut Text, every: Option<Num>) -> Result<(), AllocError>
    ensures { OnOk result (out.new ≡ out.old ++ text_of (every_layout every)) }
{
    match every {
        None => Ok(()),
        Some(most) => {
            out.put(b" every ")?;
            out.put_i64(most.value)
        }
    }
}
