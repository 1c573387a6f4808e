//! The faults of names and numbers of variables and outs.
ghost use Rattle.std.specs.Prelude.{◌≡◌};
ghost use Rattle.yt_graph.specs.Limits.{most_outs};
ghost use Rattle.yt_name_faults.specs.First.{least_with};
ghost use Rattle.yt_name_faults.specs.Names.{is_other};
ghost use Rattle.yt_name_faults.specs.Faults.{declared_faults, range_faults, width_faults, vars_faults, every_faults, out_faults, outs_faults};

use crate::fault::{LimitKind, NameFault};
use crate::least::Least;
use crate::ranges::{is_count, is_outside};
use yt_graph::{MOST_EVERY, MOST_OUTS, MOST_WIDTH, Num, OutDecl, VarDecl, Word};
use yt_table::NameTable;

/// Notes the faults of a declaration's name: it was declared before, by the number of its first declaration, or is one too
/// many.
#[tactic(auto, using(crate::proofs::FirstLemmas::both))]
pub(crate) fn declared_faults(
    least: &mut Least,
    word: &Word,
    number: usize,
    first: Option<usize>,
    left: usize,
    kind: LimitKind,
)
    ensures { least.new ≡ least_with (declared_faults word.now number first left kind) least.old }
{
    least.note_if(is_other(number, first), NameFault::Twice(word.place));
    least.note_if(left == 0, NameFault::Limit(word.place, kind));
}

/// Whether the first declaration is another than this one.
fn is_other(number: usize, first: Option<usize>) -> bool
    ensures { result ≡ is_other number first }
{
    match first {
        None => false,
        Some(n) => n != number,
    }
}

/// Notes the fault of a number that is out of its range.
pub(crate) fn range_faults(least: &mut Least, low: u32, high: u32, n: Num, kind: LimitKind)
    ensures { least.new ≡ least_with (range_faults low high n kind) least.old }
{
    least.note_if(is_outside(low, high, n), NameFault::Limit(n.place, kind));
}

/// Notes the faults of variables, of which the graph may have so many more.
pub(crate) fn vars_faults(least: &mut Least, vars: &NameTable<VarDecl>, left: usize)
    ensures { least.new ≡ least_with (vars_faults vars.now 0 left vars.now) least.old }
{
    let mut left = left;
    for (n, var) in vars.all().iter().enumerate() {
        let first = vars.find(var.name.text.as_slice());
        declared_faults(least, &var.name, n, first, left, LimitKind::Variables);
        left = left.saturating_sub(1);
    }
}

/// Notes the faults of a port's outs.
pub(crate) fn outs_faults(least: &mut Least, outs: &NameTable<OutDecl>)
    ensures { least.new ≡ least_with (outs_faults outs.now 0 most_outs outs.now) least.old }
{
    let mut left = MOST_OUTS;
    for (n, out) in outs.all().iter().enumerate() {
        out_faults(least, outs, n, left, out);
        left = left.saturating_sub(1);
    }
}

/// Notes the faults of an out.
#[tactic(auto, using(crate::proofs::FirstLemmas::both))]
fn out_faults(least: &mut Least, outs: &NameTable<OutDecl>, n: usize, left: usize, out: &OutDecl)
    ensures { least.new ≡ least_with (out_faults outs.now n left out.now) least.old }
{
    let first = outs.find(out.name.text.as_slice());
    declared_faults(least, &out.name, n, first, left, LimitKind::Outs);
    range_faults(least, 0, MOST_WIDTH, out.width, LimitKind::Width);
    every_faults(least, out.every);
}

/// Notes the fault of an `every` that is out of its range.
fn every_faults(least: &mut Least, every: Option<Num>)
    ensures { least.new ≡ least_with (every_faults every) least.old }
{
    match every {
        None => {}
        Some(n) => range_faults(least, 1, MOST_EVERY, n, LimitKind::Every),
    }
}

/// Notes the faults of a port's source: of its words, or that the port has another number of parameters.
pub(crate) fn width_faults(
    least: &mut Least,
    port: &Word,
    params: usize,
    width: Result<Num, NameFault>,
)
    ensures { least.new ≡ least_with (width_faults port.now params width) least.old }
{
    match width {
        Ok(n) => least.note_if(!is_count(n, params), NameFault::Width(port.place)),
        Err(fault) => least.note(fault),
    }
}
