//! The lines of a graph's faults.
ghost use Rattle.std.specs.Prelude.{◌≡◌, IfOk};
ghost use Rattle.yt_graph.specs.Picture.{graph_tree};
ghost use Rattle.yt_admit.specs.Lines.{IsCostLine, IsLexLine, IsNameLine, IsRateLine, limit_end, placed_line, syntax_line};

use crate::labels::{name_of_out, put_label};
use std::alloc::{AllocError, Global};
use yt_base::Text;
use yt_cost::CostFault;
use yt_graph::{Graph, Place};
use yt_lexer::LexFault;
use yt_names::{LimitKind, NameFault};
use yt_rates::RateFault;

/// The line of a fault of tokens. `Err` comes where memory ran out, as `Memory` says.
pub(crate) fn lex_line(alloc: Global, fault: LexFault) -> Result<Text, AllocError>
    ensures { IfOk result (λ line. IsLexLine line fault) }
{
    match fault {
        LexFault::BadByte(place) => placed_line(alloc, b"graph lex", place, b" bad\n"),
        LexFault::LongName(place) => placed_line(alloc, b"graph lex", place, b" long\n"),
        LexFault::BigNumber(place) => placed_line(alloc, b"graph lex", place, b" big\n"),
        LexFault::Memory => Err(AllocError),
    }
}

/// The line of a fault of syntax. `Err` comes where memory ran out.
pub(crate) fn syntax_line(alloc: Global, place: Place) -> Result<Text, AllocError>
    ensures { IfOk result (λ line. line ≡ syntax_line place) }
{
    placed_line(alloc, b"graph syntax", place, b"\n")
}

/// The line of a fault of names. `Err` comes where memory ran out, as `Memory` says.
pub(crate) fn name_line(alloc: Global, fault: NameFault) -> Result<Text, AllocError>
    ensures { IfOk result (λ line. IsNameLine line fault) }
{
    match fault {
        NameFault::Unknown(place) => placed_line(alloc, b"graph name", place, b" unknown\n"),
        NameFault::Kind(place) => placed_line(alloc, b"graph name", place, b" kind\n"),
        NameFault::Twice(place) => placed_line(alloc, b"graph name", place, b" twice\n"),
        NameFault::Width(place) => placed_line(alloc, b"graph name", place, b" width\n"),
        NameFault::Limit(place, kind) => placed_line(alloc, b"graph limit", place, limit_end(kind)),
        NameFault::Cycle(place) => placed_line(alloc, b"graph name", place, b" cycle\n"),
        NameFault::Memory => Err(AllocError),
    }
}

/// The line of a fault of a graph's costs. `Err` comes where memory ran out, as `Memory` says.
pub(crate) fn cost_line(alloc: Global, graph: &Graph, fault: CostFault) -> Result<Text, AllocError>
    ensures { IfOk result (λ line. IsCostLine line (graph_tree graph.now) fault) }
{
    let mut line = Text::new(alloc);
    match fault {
        CostFault::Long { port, ticks } => {
            line.put(b"graph cost ")?;
            put_label(&mut line, graph, port)?;
            line.put_field(ticks)?;
            line.put(b"\n")?;
        }
        CostFault::Sends { port, out } => {
            line.put(b"graph sends ")?;
            put_label(&mut line, graph, port)?;
            line.put(b" ")?;
            line.put(name_of_out(graph, port, out))?;
            line.put(b"\n")?;
        }
        CostFault::Memory => return Err(AllocError),
    }
    Ok(line)
}

/// The line of a fault of a graph's rates. `Err` comes where memory ran out, as `Memory` says.
pub(crate) fn rate_line(alloc: Global, graph: &Graph, fault: RateFault) -> Result<Text, AllocError>
    ensures { IfOk result (λ line. IsRateLine line (graph_tree graph.now) fault) }
{
    let mut line = Text::new(alloc);
    line.put(b"graph rate ")?;
    match fault {
        RateFault::Over { port, period } => {
            put_label(&mut line, graph, port)?;
            line.put(b" over ")?;
            line.put_u64(period)?;
            line.put(b"\n")?;
        }
        RateFault::Zero { port, out } => {
            put_label(&mut line, graph, port)?;
            line.put(b".")?;
            line.put(name_of_out(graph, port, out))?;
            line.put(b" zero\n")?;
        }
        RateFault::Span { port } => {
            put_label(&mut line, graph, port)?;
            line.put(b" span\n")?;
        }
        RateFault::Memory => return Err(AllocError),
    }
    Ok(line)
}

/// What there is too much of, behind a place.
fn limit_end(kind: LimitKind) -> &'static [u8]
    ensures { result.now ≡ limit_end kind }
{
    match kind {
        LimitKind::Inputs => b" inputs\n",
        LimitKind::Outputs => b" outputs\n",
        LimitKind::Resources => b" resources\n",
        LimitKind::Processes => b" processes\n",
        LimitKind::Ports => b" ports\n",
        LimitKind::Variables => b" variables\n",
        LimitKind::Outs => b" outs\n",
        LimitKind::Locals => b" locals\n",
        LimitKind::Width => b" width\n",
        LimitKind::Period => b" period\n",
        LimitKind::Every => b" every\n",
        LimitKind::Turns => b" turns\n",
    }
}

/// A line about a place: what comes before the line and the column, and what comes behind.
fn placed_line(alloc: Global, front: &[u8], place: Place, back: &[u8]) -> Result<Text, AllocError>
    ensures { IfOk result (λ line. line ≡ placed_line front.now place back.now) }
{
    let mut line = Text::new(alloc);
    line.put(front)?;
    line.put_field(u64::from(place.line))?;
    line.put_field(u64::from(place.col))?;
    line.put(back)?;
    Ok(line)
}
