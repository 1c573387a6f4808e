//! Graphs that are made.
use crate::made::{accepted_graph, graph_text};
use std::process::Abort;
use std::test::Fail;
use yt_cmd_form::form_answer;
use yt_gen::MOST_PIPELINES;

/// Numbers of pipelines, and the texts of their graphs.
const TEXTS: &[(u32, &str)] = &[
    (0, "resource pool\n"),
    (
        1,
        "resource pool
input in1(1) period 4000
output out1 from w1.g.o
process w1 in pool {
  var s = 1
  port f from in1 (v) out o(1) {
    let x = v
    repeat v % 8 max 7 {
      x = x * 3 + s
    }
    s = s + 1
    send o (x)
    send o (s)
  }
  port g from w1.f.o (v) out o(1) {
    s = s + v
    send o (s)
  }
}
",
    ),
    (
        2,
        "resource pool
input in1(1) period 4000
output out1 from w1.g.o
input in2(1) period 8000
output out2 from w2.g.o
process w1 in pool {
  var s = 1
  port f from in1 (v) out o(1) {
    let x = v
    repeat v % 8 max 7 {
      x = x * 3 + s
    }
    s = s + 1
    send o (x)
    send o (s)
  }
  port g from w1.f.o (v) out o(1) {
    s = s + v
    send o (s)
  }
}
process w2 {
  var s = 2
  port f from in2 (v) out o(1) {
    let x = v
    repeat v % 8 max 7 {
      x = x * 3 + s
    }
    s = s + 1
    send o (x)
    send o (s)
  }
  port g from w2.f.o (v) out o(1) {
    s = s + v
    send o (s)
  }
}
",
    ),
];

/// Checks the text of each graph.
fn judge_texts(rt: &(impl Abort + AllocGlobal), rows: &[(u32, &str)]) -> Result<(), Fail> {
    for (count, expected) in rows {
        let text = graph_text(rt.alloc(), *count)?;
        assert_eq!(rt; text.as_slice(), expected.as_bytes(), "of {count}");
    }
    Ok(())
}

#[test]
fn graphs_have_these_texts(rt: HostRuntime) -> Result<(), Fail> {
    judge_texts(&rt, TEXTS)
}

#[test]
fn graphs_are_accepted_and_canonical(rt: HostRuntime) -> Result<(), Fail> {
    let alloc = rt.alloc();
    for count in 0..MOST_PIPELINES + 1 {
        let accepted = accepted_graph(alloc, count)?;
        assert_eq!(rt; accepted.set().len(), 2 * count);
        assert_eq!(rt; accepted.graph().outputs.len(), count as usize);
        let text = graph_text(alloc, count)?;
        let answer = form_answer(alloc, &text)?;
        assert_eq!(rt; answer.text.as_slice(), text.as_slice(), "of {count}");
    }
    Ok(())
}
