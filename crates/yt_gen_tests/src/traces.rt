//! Traces that are made.
use crate::made::{accepted_graph, trace_text};
use std::alloc::{AllocError, Global};
use std::process::Abort;
use std::test::Fail;
use yt_gen::MOST_PIPELINES;
use yt_trace::{Trace, read_trace};

/// The text of the trace of one pipeline: 400 messages, 4,001 ticks apart.
fn one_text(alloc: Global) -> Result<Vec<u8>, AllocError> {
    let mut text = String::new(alloc);
    for before in 0..400u32 {
        let time = 13 + 4001 * before;
        let value = (31 + 17 * before) % 1000;
        writeln!(text, "{time} in1 {value}")?;
    }
    Ok(text.into_bytes())
}

#[test]
fn the_traces_of_no_pipeline_and_of_one(rt: HostRuntime) -> Result<(), Fail> {
    let alloc = rt.alloc();
    assert!(rt; trace_text(alloc, 0)?.is_empty());
    assert_eq!(rt;
        trace_text(alloc, 1)?.as_slice(),
        one_text(alloc)?.as_slice()
    );
    Ok(())
}

/// A number of pipelines, and with what the text of its trace begins and ends.
type Ends = (u32, &'static str, &'static str);

const ENDS: &[Ends] = &[
    (
        1,
        "13 in1 31\n4014 in1 48\n8015 in1 65\n",
        "\n1588410 in1 780\n1592411 in1 797\n1596412 in1 814\n",
    ),
    (
        2,
        "13 in1 31\n26 in2 62\n4014 in1 48\n8015 in1 65\n8028 in2 79\n12016 in1 82\n16017 in1 99\n16030 in2 96\n",
        "\n3176820 in2 811\n3184822 in2 828\n3192824 in2 845\n",
    ),
    (
        16,
        "13 in1 31\n26 in2 62\n39 in3 93\n52 in4 124\n65 in5 155\n78 in6 186\n91 in7 217\n104 in8 248\n117 in9 279\n130 in10 310\n143 in11 341\n156 in12 372\n169 in13 403\n182 in14 434\n195 in15 465\n208 in16 496\n2042 in3 110\n2079 in6 203\n2121 in9 296\n2158 in12 389\n2195 in15 482\n4014 in1 48\n",
        "\n3192065 in5 938\n3192542 in11 124\n3192824 in2 845\n3193301 in8 31\n3193778 in14 217\n",
    ),
];

/// Checks with what each trace's text begins and ends.
fn judge_ends(rt: &(impl Abort + AllocGlobal), rows: &[Ends]) -> Result<(), Fail> {
    for (count, begin, end) in rows {
        let text = trace_text(rt.alloc(), *count)?;
        assert!(rt; text.starts_with(begin.as_bytes()), "of {count}");
        assert!(rt; text.ends_with(end.as_bytes()), "of {count}");
    }
    Ok(())
}

#[test]
fn traces_begin_and_end_so(rt: HostRuntime) -> Result<(), Fail> {
    judge_ends(&rt, ENDS)
}

/// The trace of so many pipelines, read.
fn trace_of(alloc: Global, count: u32) -> Result<Trace, Fail> {
    let accepted = accepted_graph(alloc, count)?;
    let text = trace_text(alloc, count)?;
    match read_trace(alloc, accepted.graph(), &text) {
        Ok(trace) => Ok(trace),
        Err(_) => Err("a line is at fault".into()),
    }
}

#[test]
fn traces_are_those_of_their_graphs(rt: HostRuntime) -> Result<(), Fail> {
    for count in 0..MOST_PIPELINES + 1 {
        let trace = trace_of(rt.alloc(), count)?;
        assert_eq!(rt; trace.len(), 400 * count as usize, "of {count}");
    }
    Ok(())
}
