//! Runs of long traces, which are made: how many lines are printed, and what stands at both ends and between.
use crate::graph_texts::{CAMERA, LOOPING, MANY_MESSAGES, NESTED, NO_PORTS};
use std::alloc::{AllocError, Global};
use std::test::Fail;
use yartos::Status;
use yartos_rows::{Wrong, ask};
use yt_base::Text;
use yt_io::MemSink;

/// How many bytes are printed at most.
const ROOM: usize = 500_000;

/// Messages of one input: its name, how many ticks lie between two, from tick 0 on, how many there are at most, whether each one's first value
/// is its number, from 0, and its other values.
struct Messages {
    input: &'static str,
    apart: u64,
    most: u64,
    numbered: bool,
    values: &'static str,
}

impl Messages {
    /// Adds the line of the message that comes at this tick, where one does.
    fn put(&self, trace: &mut Text, time: u64) -> Result<(), AllocError> {
        let number = time.checked_div(self.apart).unwrap_or(self.most);
        if number >= self.most || time.checked_rem(self.apart) != Some(0) {
            return Ok(());
        }
        trace.put_u64(time)?;
        trace.put(b" ")?;
        trace.put(self.input.as_bytes())?;
        if self.numbered {
            trace.put_field(number)?;
        }
        trace.put(self.values.as_bytes())?;
        trace.put(b"\n")
    }
}

/// A graph and its messages, which come at ticks of so many steps, each so many ticks long; the status; how many lines are printed; with which
/// they begin and end, and which stand among them.
struct LongRun {
    graph: &'static str,
    messages: &'static [Messages],
    step: u64,
    steps: u64,
    status: Status,
    lines: usize,
    first: &'static str,
    last: &'static str,
    among: &'static [&'static str],
}

const LONG_RUNS: &[LongRun] = &[
    // The bound of jobs and lines is 999,960, and none of the 64 messages comes.
    LongRun {
        graph: MANY_MESSAGES,
        messages: &[Messages {
            input: "tick",
            apart: 200,
            most: 20_000,
            numbered: false,
            values: " 0",
        }],
        step: 200,
        steps: 15_384,
        status: Status::Done,
        lines: 15_385,
        first: "run 0 3 p.a 1\nrun 200 203 p.a 2\n",
        last: "\nrun 3076600 3076603 p.a 15384\nend 3076603\n",
        among: &["\nrun 1000000 1000003 p.a 5001\n"],
    },
    // With a message more it is 65 greater.
    LongRun {
        graph: MANY_MESSAGES,
        messages: &[Messages {
            input: "tick",
            apart: 200,
            most: 20_000,
            numbered: false,
            values: " 0",
        }],
        step: 200,
        steps: 15_385,
        status: Status::Trace,
        lines: 1,
        first: "trace jobs 1000025\n",
        last: "",
        among: &[],
    },
    // The sample of tick 100,000 waits for the frame that has begun.
    LongRun {
        graph: CAMERA,
        messages: &[
            Messages {
                input: "cam",
                apart: 33_000,
                most: 40,
                numbered: true,
                values: " 400",
            },
            Messages {
                input: "mic",
                apart: 20_000,
                most: 80,
                numbered: false,
                values: " 1000",
            },
        ],
        step: 1000,
        steps: 1600,
        status: Status::Done,
        lines: 241,
        first: "run 0 11 mix.sample 1\n\
        run 11 2023 show.frame 1\n\
        out 20000 speaker 250\n\
        run 20000 20011 mix.sample 2\n\
        out 33000 screen 1 0\n\
        run 33000 35012 show.frame 2\n\
        out 40000 speaker 437\n",
        last: "\nout 1600000 speaker 997\nend 1600000\n",
        among: &["\nrun 99000 101012 show.frame 4\nrun 101012 101023 mix.sample 6\n"],
    },
    // As many messages as there may be, to an input that feeds no port; and one more.
    LongRun {
        graph: NO_PORTS,
        messages: &[Messages {
            input: "a",
            apart: 1,
            most: 300_000,
            numbered: false,
            values: "",
        }],
        step: 1,
        steps: 200_000,
        status: Status::Done,
        lines: 1,
        first: "end 0\n",
        last: "",
        among: &[],
    },
    LongRun {
        graph: NO_PORTS,
        messages: &[Messages {
            input: "a",
            apart: 1,
            most: 300_000,
            numbered: false,
            values: "",
        }],
        step: 1,
        steps: 200_001,
        status: Status::Trace,
        lines: 1,
        first: "trace 200001 many\n",
        last: "",
        among: &[],
    },
    // Each message comes as soon as it may, to four ports that interrupt each other: the variables of the first three are 2^11 - 1, 3 * 2^40 - 1 and
    // 3 + 134 at last.
    LongRun {
        graph: NESTED,
        messages: &[
            Messages {
                input: "a",
                apart: 400,
                most: 10,
                numbered: false,
                values: "",
            },
            Messages {
                input: "b",
                apart: 100,
                most: 40,
                numbered: false,
                values: "",
            },
            Messages {
                input: "c",
                apart: 30,
                most: 134,
                numbered: false,
                values: "",
            },
            Messages {
                input: "d",
                apart: 8,
                most: 500,
                numbered: false,
                values: "",
            },
        ],
        step: 2,
        steps: 2000,
        status: Status::Done,
        lines: 1576,
        first: "run 0 2 p4.d 1\nrun 2 8 p3.c 1\nout 8 z\n",
        last: "\nout 4000 w 2047\nout 4000 x 3298534883327\nout 4000 z\nout 4020 y 137\nend 4020\n",
        among: &[],
    },
    // The same where two ports share a variable: it is 2975281302211218000 at last, behind many multiples of 2^64.
    LongRun {
        graph: LOOPING,
        messages: &[
            Messages {
                input: "work",
                apart: 100,
                most: 40,
                numbered: true,
                values: "",
            },
            Messages {
                input: "double",
                apart: 40,
                most: 100,
                numbered: false,
                values: "",
            },
            Messages {
                input: "alarm",
                apart: 12,
                most: 334,
                numbered: true,
                values: "",
            },
        ],
        step: 4,
        steps: 1000,
        status: Status::Done,
        lines: 1046,
        first: "run 0 3 q.alarm 1\nrun 3 10 p.double 1\nrun 10 12 p.work 1\nout 12 heard 0\n",
        last: "\nout 4000 twice 2975281302211218000\nout 4008 heard 333\nend 4008\n",
        among: &[],
    },
];

impl LongRun {
    /// The trace's text.
    fn trace(&self, alloc: Global) -> Result<Vec<u8>, AllocError> {
        let mut trace = Text::new(alloc);
        for step in 0..self.steps {
            for messages in self.messages {
                messages.put(&mut trace, step.saturating_mul(self.step))?;
            }
        }
        trace.as_slice().to_vec(alloc)
    }

    /// Checks what is answered.
    fn judge(&self, alloc: Global, number: usize) -> Result<(), Wrong> {
        let mut sink = MemSink::with_room(alloc, ROOM, Vec::new(alloc))?;
        let files = vec![in alloc;
            (
                String::from_str(alloc, "g")?,
                Vec::from_slice(alloc, self.graph.as_bytes())?
            ),
            (String::from_str(alloc, "t")?, self.trace(alloc)?),
        ]?;
        let status = ask(alloc, &["run", "g", "t"], files, Vec::new(alloc), &mut sink)?;
        let text = String::from_utf8_lossy(alloc, sink.bytes())?;
        if status == self.status
            && text.lines().count() == self.lines
            && text.starts_with(self.first)
            && text.ends_with(self.last)
            && self.among.iter().all(|lines| text.contains(*lines))
        {
            return Ok(());
        }
        Err(Wrong::Row {
            number,
            status,
            text,
        })
    }
}

/// Checks each run.
fn judge_long(alloc: Global, runs: &[LongRun]) -> Result<(), Wrong> {
    for (number, run) in runs.iter().enumerate() {
        run.judge(alloc, number)?;
    }
    Ok(())
}

#[test]
fn long_runs_are_printed(rt: HostRuntime) -> Result<(), Fail> {
    judge_long(rt.alloc(), LONG_RUNS)?;
    Ok(())
}
