//! Texts of traces of a graph of two inputs.
ghost use Rattle.std.specs.Prelude.{◌≡◌, IfOk};
ghost use Rattle.yt_graph.specs.Picture.{graph_tree};
ghost use Rattle.yt_graph.specs.WellFormed.{IsWellFormed};
ghost use Rattle.yt_trace_tests.specs.Clock.{clock, input_of};

use std::alloc::{AllocError, Global};
use std::process::Abort;
use std::test::Fail;
use yt_base::Line;
use yt_graph::{Graph, Input, Inputs, Outputs, Ports, Vars};
use yt_list::{Name, Names};
use yt_trace::{Trace, TraceFault, read_trace};

/// Texts of traces of the inputs `tick`, of one number each 10 ticks, and `tock`, of none each 4, and their faults.
const TEXTS: &[(&str, Option<TraceFault>)] = &[
    ("", None),
    ("# x\n\n 0\ttick  7 \r\n", None),
    (
        "0 tick 7\n9 tick 8",
        Some(TraceFault::Soon { line: 2, least: 10 }),
    ),
    ("0 tick 7\n10 tick 8", None),
    (
        "0 tick -9223372036854775808\n10 tick 9223372036854775807",
        None,
    ),
    ("0 tick 9223372036854775808", Some(TraceFault::Form(1))),
    ("0 tock 7\n0 tick 0x7", Some(TraceFault::Width(1))),
    ("0", Some(TraceFault::Form(1))),
    ("x tick 7", Some(TraceFault::Form(1))),
    ("-1 tick 7", Some(TraceFault::Form(1))),
    ("0 tuck +7", Some(TraceFault::Form(1))),
    ("0 tuck", Some(TraceFault::Unknown(1))),
    ("4000001 tuck", Some(TraceFault::Unknown(1))),
    ("0 tick", Some(TraceFault::Width(1))),
    ("4000001 tick 7 7", Some(TraceFault::Width(1))),
    ("4000001 tick 7", Some(TraceFault::Late(1))),
    ("18446744073709551616 tick 7", Some(TraceFault::Late(1))),
    ("4000000 tick 007", None),
    ("4000000 tock\n4000001 tock", Some(TraceFault::Late(2))),
    ("5 tick 7\n# x\n\n4 tock", Some(TraceFault::Order(4))),
    ("5 tick 7\n4 tick 7", Some(TraceFault::Order(2))),
    (
        "0 tock\n0 tick 7\n3 tock",
        Some(TraceFault::Soon { line: 3, least: 4 }),
    ),
    (
        "0 tick 7\n8 tock\n9 tick 8",
        Some(TraceFault::Soon { line: 3, least: 10 }),
    ),
    ("0 tick 7\n0 tock\n4 tock\n10 tick 8\n10 tock", None),
];

/// An input.
fn input(alloc: Global, name: &[u8], width: u32, period: u64) -> Result<Input, AllocError>
    ensures { IfOk result (λ input. input ≡ input_of name.now width period) }
{
    Ok(Input {
        name: Name::from_vec(Vec::from_slice(alloc, name)?),
        width,
        period,
    })
}

/// The graph of the two inputs, of which no port makes anything.
fn clock(alloc: Global) -> Result<Graph, AllocError>
    ensures { IfOk result (λ graph. IsWellFormed (graph_tree graph)) }
{
    let tick = input(alloc, b"tick", 1, 10)?;
    let tock = input(alloc, b"tock", 0, 4)?;
    Ok(Graph {
        inputs: Inputs::from_vec(vec![in alloc; tick, tock]?),
        outputs: Outputs::new(alloc),
        groups: Names::new(alloc),
        vars: Vars::new(alloc),
        ports: Ports::new(alloc),
    })
}

/// The trace of a text, cut off where it is long.
fn trace_of(alloc: Global, text: &[u8]) -> Result<Result<Trace, TraceFault>, Fail> {
    let graph = clock(alloc)?;
    match read_trace(alloc, &graph, &text[..text.len().min(4_000_000)]) {
        Err(TraceFault::Memory) => Err("no memory".into()),
        read => Ok(read),
    }
}

/// Checks the first fault of each text.
fn judge_texts(
    rt: &(impl Abort + AllocGlobal),
    rows: &[(&str, Option<TraceFault>)],
) -> Result<(), Fail> {
    for (text, expected) in rows {
        let fault = trace_of(rt.alloc(), text.as_bytes())?.err();
        assert_eq!(rt; fault, *expected, "at {text}");
    }
    Ok(())
}

#[test]
fn the_first_fault_is_told(rt: HostRuntime) -> Result<(), Fail> {
    judge_texts(&rt, TEXTS)
}

#[test]
fn messages_are_read(rt: HostRuntime) -> Result<(), Fail> {
    let Ok(trace) = trace_of(rt.alloc(), b"3 tick -8\n\n3 tock\n13 tick 007")? else {
        return Err("no trace".into());
    };
    let [first, second, third] = trace.messages() else {
        return Err("not three messages".into());
    };
    assert_eq!(rt; (first.time, first.input), (3, 1));
    assert_eq!(rt; first.values.as_slice(), [-8].as_slice());
    assert_eq!(rt; (second.time, second.input), (3, 2));
    assert!(rt; second.values.is_empty());
    assert_eq!(rt; (third.time, third.input), (13, 1));
    assert_eq!(rt; third.values.as_slice(), [7].as_slice());
    assert_eq!(rt; trace.latest_time(), 13);
    Ok(())
}

/// The text of as many messages as a trace may have, of the input `tock`, one each 20 ticks from 0 on.
fn full_text(alloc: Global) -> Result<Vec<u8>, AllocError> {
    let mut text = Vec::new(alloc);
    for n in 0..200_000u64 {
        let mut line = Line::new();
        line.put_u64(20 * n);
        line.put(b" tock\n");
        text.extend_from_slice(line.bytes())?;
    }
    Ok(text)
}

#[test]
fn a_trace_may_have_200_000_messages(rt: HostRuntime) -> Result<(), Fail> {
    let alloc = rt.alloc();
    let Ok(trace) = trace_of(alloc, &full_text(alloc)?)? else {
        return Err("no trace".into());
    };
    assert_eq!(rt; trace.len(), 200_000);
    let Some(last) = trace.messages().last() else {
        return Err("no message".into());
    };
    assert_eq!(rt; (last.time, last.input), (3_999_980, 2));
    assert!(rt; last.values.is_empty());
    Ok(())
}

#[test]
fn a_trace_has_at_most_200_000_messages(rt: HostRuntime) -> Result<(), Fail> {
    let alloc = rt.alloc();
    let mut text = full_text(alloc)?;
    text.extend_from_slice(b"4000000 tock")?;
    assert_eq!(rt;
        trace_of(alloc, &text)?.err(),
        Some(TraceFault::Many(200_001))
    );
    Ok(())
}
