//! How many more parts a graph may have.
ghost use Rattle.std.specs.Prelude.{◌≡◌};
ghost use Rattle.yt_graph.specs.AstPicture.{item_tree};
ghost use Rattle.yt_name_faults.specs.Faults as faults;

use yt_graph::{
    Item, MOST_INPUTS, MOST_OUTPUTS, MOST_PORTS, MOST_PROCESSES, MOST_RESOURCES, MOST_VARS,
};

/// How many more of each kind a graph may declare.
#[derive(Clone, Copy)]
pub struct Room {
    /// Inputs.
    pub inputs: usize,
    /// Outputs.
    pub outputs: usize,
    /// Resources that are declared.
    pub resources: usize,
    /// Processes.
    pub processes: usize,
    /// Ports of all processes.
    pub ports: usize,
    /// Variables of all processes.
    pub vars: usize,
}

impl Room {
    /// What a graph may declare.
    pub(crate) fn full() -> Room
        ensures { result ≡ faults.full_room }
    {
        Room {
            inputs: MOST_INPUTS,
            outputs: MOST_OUTPUTS,
            resources: MOST_RESOURCES,
            processes: MOST_PROCESSES,
            ports: MOST_PORTS,
            vars: MOST_VARS,
        }
    }

    /// What it may declare behind a part.
    pub(crate) fn after(self, item: &Item) -> Room
        ensures { result ≡ faults.room_after self (item_tree item.now) }
    {
        match item {
            Item::Input { .. } => Room {
                inputs: self.inputs.saturating_sub(1),
                ..self
            },
            Item::Output { .. } => Room {
                outputs: self.outputs.saturating_sub(1),
                ..self
            },
            Item::Resource { .. } => Room {
                resources: self.resources.saturating_sub(1),
                ..self
            },
            Item::Process { vars, ports, .. } => Room {
                processes: self.processes.saturating_sub(1),
                ports: self.ports.saturating_sub(ports.len()),
                vars: self.vars.saturating_sub(vars.len()),
                ..self
            },
        }
    }
}
