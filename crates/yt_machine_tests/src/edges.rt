//! The least and the greatest graphs and messages.

use crate::handlers::graph_of;
use std::alloc::{AllocError, Global};
use std::test::Fail;
use yt_cost::compile;
use yt_mean::handle;

/// The least port: its messages have no number, and it does nothing.
const NOTHING: &[u8] = b"input i(0) period 1 process p { port a from i () { } }";

/// A port with as many parameters, locals, outs and values of a message as there may be, in a process of four variables.
const GREATEST: &[u8] = b" { var a = 1 var b = 2 var c = 3 var d = 4 \
    port h from i (p, q, r, s, t, u, v, w) \
    out o1(8) out o2(8) out o3(8) out o4(8) out o5(8) out o6(8) out o7(8) out o8(8) { \
    let e = p let f = q let g = r let j = s let k = t let l = u let m = v let n = w \
    d = n send o8 (n, m, l, k, j, g, f, e) } } ";

/// The text of a graph with 64 such ports, each in a process of its own.
fn greatest(alloc: Global) -> Result<Vec<u8>, AllocError> {
    let mut text = Vec::from_slice(alloc, b"input i(8) period 1000000 ")?;
    for tens in b"01234567" {
        for ones in b"01234567" {
            text.extend_from_slice(b"process x")?;
            text.push(*tens)?;
            text.push(*ones)?;
            text.extend_from_slice(GREATEST)?;
        }
    }
    Ok(text)
}

#[test]
fn a_graph_without_ports_has_no_code(rt: HostRuntime) -> Result<(), Fail> {
    let alloc = rt.alloc();
    let graph = graph_of(alloc, b"")?;
    assert!(rt; graph.ports.is_empty());
    assert!(rt; compile(alloc, &graph).is_ok());
    Ok(())
}

#[test]
fn a_port_does_nothing_in_one_tick(rt: HostRuntime) -> Result<(), Fail> {
    let alloc = rt.alloc();
    let graph = graph_of(alloc, NOTHING)?;
    let Ok(codes) = compile(alloc, &graph) else {
        return Err(Fail::from("a fault of costs"));
    };
    assert!(rt; graph.ports.len() == 1 && graph.vars.is_empty());
    assert!(rt; graph.ports.at(0).params == 0);
    let told = handle(alloc, &graph, 1, &[], &[])?;
    assert_eq!(rt; told.ticks, 1);
    assert!(rt; told.vars.is_empty() && told.sends.is_empty());
    assert_eq!(rt; codes.cost(1), 1);
    assert_eq!(rt; codes.code(1).instrs().len(), 1);
    Ok(())
}

#[test]
fn the_last_of_64_ports_has_its_code(rt: HostRuntime) -> Result<(), Fail> {
    let alloc = rt.alloc();
    let text = greatest(alloc)?;
    assert!(rt; text.len() <= 100_000);
    let graph = graph_of(alloc, &text)?;
    let Ok(codes) = compile(alloc, &graph) else {
        return Err(Fail::from("a fault of costs"));
    };
    assert!(rt; graph.ports.len() == 64 && graph.vars.len() == 256);
    assert!(rt; graph.ports.at(63).params == 8 && graph.ports.at(63).locals == 16);
    // Eight times 2 for a local, 2 for the variable, 8 and 1 for the message, and 1 for the end.
    assert_eq!(rt; codes.cost(64), 28);
    Ok(())
}
