//! What sources and paths lead to, or the fault of their words.
ghost use Rattle.std.specs.Prelude.{◌≡◌, ◌<◌, length, IfSome, Some};
ghost use Rattle.std.specs.Option.{option_map, option_copied};
ghost use Rattle.yt_graph.specs.AstPicture.{item_tree};
ghost use Rattle.yt_name_faults.specs.Inside.OwnParts.{in_own_part, own_port_at};
ghost use Rattle.yt_name_faults.specs.Parts.{port_of, trees};
ghost use Rattle.yt_name_faults.specs.Paths.{look_up, out_of_port, ports_of, source_width, input_width, port_before};

use crate::fault::NameFault;
use crate::index::Index;
use crate::part::{Part, PortPart};
use crate::target::Target;
use yt_graph::{Item, Num, Path, Source, Word};

/// What a path leads to, or the fault of its words.
#[tactic(auto, unfolding(crate::specs::Paths::look_up))]
pub fn look_up(index: &Index, path: &Path) -> Result<Target, NameFault>
    ensures { result ≡ look_up (trees index.now) path.now }
{
    match index.named(path.process.text.as_slice()) {
        None => Err(NameFault::Unknown(path.process.place)),
        Some(part) => look_in_part(path, part),
    }
}

/// What a path leads to whose first word stands for this part.
fn look_in_part(path: &Path, part: &Part) -> Result<Target, NameFault>
    ensures { result ≡ in_own_part path.now part.now.first (item_tree part.now.item.now) }
{
    match part.item {
        Item::Process { .. } => look_at_port(path, part, part.place(path.port.text.as_slice())),
        _ => Err(NameFault::Kind(path.process.place)),
    }
}

/// What a path leads to whose second word stands for the port at a place of this part. The caller shows that there is one.
fn look_at_port(path: &Path, part: &Part, place: Option<usize>) -> Result<Target, NameFault>
    requires { IfSome place (λ n. n < length part.now.ports.items) }
    ensures { result ≡ own_port_at path.now part.now.first (ports_of (item_tree part.now.item.now)) place }
{
    match place {
        None => Err(NameFault::Unknown(path.port.place)),
        Some(n) => look_in_port(path, part.first + n, &part.ports[n]),
    }
}

/// What a path leads to whose second word stands for this port, of this number.
fn look_in_port(path: &Path, n: usize, port: &PortPart) -> Result<Target, NameFault>
    ensures { result ≡ out_of_port path.now n (Some (port_of port.now)) }
{
    match port.outs.find(path.out.text.as_slice()) {
        None => Err(NameFault::Unknown(path.out.place)),
        Some(out) => Ok(Target {
            port: n,
            out,
            width: port.outs.all()[out].width,
        }),
    }
}

/// How many numbers the messages of a source have, or the fault of its words.
#[tactic(auto, unfolding(crate::specs::Paths::source_width))]
pub(crate) fn source_width(index: &Index, source: &Source) -> Result<Num, NameFault>
    ensures { result ≡ source_width (trees index.now) source.now }
{
    match source {
        Source::Input(word) => match index.named(word.text.as_slice()) {
            None => Err(NameFault::Unknown(word.place)),
            Some(part) => input_width(word, part.item),
        },
        Source::Out(path) => {
            let target = look_up(index, path)?;
            Ok(target.width)
        }
    }
}

/// How many numbers the messages of an input have, or the fault of a word that stands for another part.
fn input_width(word: &Word, item: &Item) -> Result<Num, NameFault>
    ensures { result ≡ input_width word.now (item_tree item.now) }
{
    match item {
        Item::Input { width, .. } => Ok(*width),
        _ => Err(NameFault::Kind(word.place)),
    }
}

/// The port before a port in its chain of sources; none where the chain ends.
#[tactic(auto, unfolding(crate::specs::Paths::port_before))]
pub(crate) fn port_before(index: &Index, source: &Source) -> Option<usize>
    ensures { result ≡ port_before (trees index.now) source.now }
{
    match source {
        Source::Input(_) => None,
        Source::Out(path) => match look_up(index, path) {
            Ok(target) => Some(target.port),
            Err(_) => None,
        },
    }
}
