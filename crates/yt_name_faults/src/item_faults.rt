//! The faults of a graph's parts.
ghost use Rattle.std.specs.Prelude.{◌≡◌, OnOk, IfOk, map};
ghost use Rattle.yt_graph.specs.AstPicture.{item_tree};
ghost use Rattle.yt_name_faults.specs.First.{least_with, first_fault};
ghost use Rattle.std.specs.Option.{option_copied};
ghost use Rattle.yt_name_faults.specs.Parts.{placed_of, trees};
ghost use Rattle.yt_name_faults.specs.Paths.{ports_of};
ghost use Rattle.yt_name_faults.specs.Faults.{full_room, is_resource, inside_faults, err_faults, item_faults, items_faults, process_faults, name_faults};

use crate::decl_faults::{declared_faults, range_faults, vars_faults};
use crate::fault::{LimitKind, NameFault};
use crate::index::Index;
use crate::least::Least;
use crate::part::Part;
use crate::paths::look_up;
use crate::port_faults::ports_faults;
use crate::room::Room;
use crate::rules::Rules;
use crate::target::Target;
use std::alloc::{AllocError, Global};
use yt_graph::{Item, MOST_PERIOD, MOST_WIDTH, OpHead, Word};

/// The fault of a graph's names that decides, if there is one.
#[tactic(auto, unfolding(crate::specs::Faults::name_faults))]
pub fn first_fault<'a>(
    alloc: Global,
    index: &Index<'a>,
    ops: &'a [OpHead],
) -> Result<Option<NameFault>, AllocError>
    ensures { IfOk result (λ fault. fault ≡ first_fault (name_faults (trees index.now) ops.now)) }
{
    let rules = Rules::new(alloc, index, ops)?;
    let mut least = Least::new();
    items_faults(alloc, &rules, &mut least, index.parts())?;
    Ok(least.fault())
}

/// Notes the faults of parts.
fn items_faults(
    alloc: Global,
    rules: &Rules,
    least: &mut Least,
    parts: &[Part],
) -> Result<(), AllocError>
    ensures { OnOk result (least.new ≡ least_with (items_faults (trees rules.now.index.now) rules.now.ops.now 0 full_room (map placed_of parts.now)) least.old) }
{
    let mut room = Room::full();
    for (n, part) in parts.iter().enumerate() {
        item_faults(alloc, rules, least, n, room, part)?;
        room = room.after(part.item);
    }
    Ok(())
}

/// Notes the faults of a part.
#[tactic(auto, using(crate::proofs::FirstLemmas::both))]
fn item_faults(
    alloc: Global,
    rules: &Rules,
    least: &mut Least,
    n: usize,
    room: Room,
    part: &Part,
) -> Result<(), AllocError>
    ensures { OnOk result (least.new ≡ least_with (item_faults (trees rules.now.index.now) rules.now.ops.now n part.now.first room (item_tree part.now.item.now)) least.old) }
{
    match part.item {
        Item::Input {
            name,
            width,
            period,
        } => {
            let first = rules.index.place(name.text.as_slice());
            declared_faults(least, name, n, first, room.inputs, LimitKind::Inputs);
            range_faults(least, 0, MOST_WIDTH, *width, LimitKind::Width);
            range_faults(least, 1, MOST_PERIOD, *period, LimitKind::Period);
            Ok(())
        }
        Item::Output { name, path } => {
            let first = rules.index.place(name.text.as_slice());
            declared_faults(least, name, n, first, room.outputs, LimitKind::Outputs);
            target_faults(least, look_up(rules.index, path));
            Ok(())
        }
        Item::Resource { name } => {
            let first = rules.index.place(name.text.as_slice());
            declared_faults(least, name, n, first, room.resources, LimitKind::Resources);
            Ok(())
        }
        Item::Process { name, inside, .. } => {
            let first = rules.index.place(name.text.as_slice());
            declared_faults(least, name, n, first, room.processes, LimitKind::Processes);
            inside_faults(rules.index, least, inside.as_ref());
            process_faults(alloc, rules, least, part, room)
        }
    }
}

/// Notes the fault of a path's words.
fn target_faults(least: &mut Least, target: Result<Target, NameFault>)
    ensures { least.new ≡ least_with (err_faults target) least.old }
{
    match target {
        Ok(_) => {}
        Err(fault) => least.note(fault),
    }
}

/// Notes the faults of the word behind `in`.
fn inside_faults(index: &Index, least: &mut Least, inside: Option<&Word>)
    ensures { least.new ≡ least_with (inside_faults (trees index.now) (option_copied inside.entry)) least.old }
{
    match inside {
        None => {}
        Some(word) => match index.named(word.text.as_slice()) {
            None => least.note(NameFault::Unknown(word.place)),
            Some(part) => least.note_if(!is_resource(part.item), NameFault::Kind(word.place)),
        },
    }
}

/// Whether a part is a resource.
fn is_resource(item: &Item) -> bool
    ensures { result ≡ is_resource (item_tree item.now) }
{
    match item {
        Item::Resource { .. } => true,
        _ => false,
    }
}

/// Notes the faults of a process's variables and ports.
#[tactic(auto, using(crate::proofs::FirstLemmas::both))]
fn process_faults(
    alloc: Global,
    rules: &Rules,
    least: &mut Least,
    part: &Part,
    room: Room,
) -> Result<(), AllocError>
    ensures { OnOk result (least.new ≡ least_with (process_faults (trees rules.now.index.now) rules.now.ops.now part.now.first room part.now.vars (ports_of (item_tree part.now.item.now))) least.old) }
{
    vars_faults(least, &part.vars, room.vars);
    ports_faults(alloc, rules, least, part, room.ports)
}
