//! What handlers have before the first message.
ghost use Rattle.std.specs.Prelude.{◌≡◌, ◌+◌, ◌≤◌, ℕ, map, replicate, IfOk};
ghost use Rattle.yt_graph.specs.Limits.{most_ports};
ghost use Rattle.yt_body.specs.State.{no_run};

use crate::port_run::PortRun;
use std::alloc::{AllocError, Global};
use yt_graph::{Port, Var};

/// The widths of ports' messages. `Err` comes where memory ran out.
pub(crate) fn widths_of(alloc: Global, ports: &[Port]) -> Result<Vec<u32>, AllocError>
    ensures { IfOk result (λ widths. widths.items ≡ map (λ p. p.params) ports.now) }
{
    let mut widths = Vec::with_capacity(alloc, ports.len())?;
    for port in ports {
        widths.push(port.params)?;
    }
    Ok(widths)
}

/// The variables' values before the first tick. `Err` comes where memory ran out.
pub(crate) fn start_of(alloc: Global, vars: &[Var]) -> Result<Vec<i64>, AllocError>
    ensures { IfOk result (λ values. values.items ≡ map (λ v. v.start) vars.now) }
{
    vars.iter().map(|var| var.start).collect(alloc)
}

/// Runs of so many ports, by number with 0, to which no message came. `Err` comes where memory ran out.
pub(crate) fn runs_of(alloc: Global, ports: usize) -> Result<Vec<PortRun>, AllocError>
    requires { ports ≤ most_ports }
    ensures { IfOk result (λ runs. runs.items ≡ replicate (ports + 1) no_run) }
{
    let mut runs = Vec::with_capacity(alloc, ports + 1)?;
    for _port in 0..ports + 1 {
        runs.push(PortRun::new())?;
    }
    Ok(runs)
}
