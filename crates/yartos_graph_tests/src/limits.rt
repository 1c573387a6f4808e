//! Reserved words, and texts at the limits and one past them: what `check` says of them.
use std::alloc::{AllocError, Global};
use std::test::Fail;
use yartos::Status;
use yartos_rows::{Wrong, expect};
use yt_base::Line;

/// Checks what `check` says of a graph.
fn check(
    alloc: Global,
    number: usize,
    graph: Vec<u8>,
    status: Status,
    text: &str,
) -> Result<(), Wrong> {
    let files = vec![in alloc; (String::from_str(alloc, "g")?, graph)]?;
    expect(alloc, number, &["check", "g"], files, status, text)
}

/// Every reserved word.
const RESERVED: &[&str] = &[
    "input", "output", "resource", "process", "in", "var", "port", "from", "out", "every",
    "period", "let", "send", "if", "else", "repeat", "max", "and", "or", "not", "burst", "within",
    "native", "cost", "node", "link", "delay",
];

/// Checks that none of these words names a resource.
fn judge_words(alloc: Global, words: &[&str]) -> Result<(), Wrong> {
    for (number, word) in words.iter().enumerate() {
        let mut graph = Vec::from_slice(alloc, b"resource ")?;
        graph.extend_from_slice(word.as_bytes())?;
        check(alloc, number, graph, Status::Graph, "graph syntax 1 10\n")?;
    }
    Ok(())
}

#[test]
fn reserved_words_name_nothing(rt: HostRuntime) -> Result<(), Fail> {
    judge_words(rt.alloc(), RESERVED)?;
    Ok(())
}

/// A text that grows: what it begins with; a line that is repeated, around its number from 0; what stands in the middle; what is
/// repeated behind it; and the end. So many lines are accepted, and what is said then; and what is said of one more.
#[derive(Clone, Copy)]
struct Grown {
    begin: &'static str,
    before: &'static str,
    behind: &'static str,
    middle: &'static str,
    closing: &'static str,
    end: &'static str,
    most: u16,
    status: Status,
    said: &'static str,
    said_past: &'static str,
}

impl Grown {
    /// The text with so many lines.
    fn text(&self, alloc: Global, count: u16) -> Result<Vec<u8>, AllocError> {
        let mut text = Vec::from_slice(alloc, self.begin.as_bytes())?;
        for n in 0..count {
            text.extend_from_slice(self.before.as_bytes())?;
            let mut digits = Line::new();
            digits.put_u64(u64::from(n));
            text.extend_from_slice(digits.bytes())?;
            text.extend_from_slice(self.behind.as_bytes())?;
        }
        text.extend_from_slice(self.middle.as_bytes())?;
        for _ in 0..count {
            text.extend_from_slice(self.closing.as_bytes())?;
        }
        text.extend_from_slice(self.end.as_bytes())?;
        Ok(text)
    }
}

/// Texts that grow to each limit.
const GROWN: &[Grown] = &[
    Grown {
        begin: "",
        before: "input n",
        behind: "(0) period 1\n",
        middle: "",
        closing: "",
        end: "",
        most: 16,
        status: Status::Done,
        said: "accepted 0 0/1\n",
        said_past: "graph limit 17 7 inputs\n",
    },
    Grown {
        begin: "input i(0) period 10\nprocess p { port a from i () out o(0) { send o () } }\n",
        before: "output n",
        behind: " from p.a.o\n",
        middle: "",
        closing: "",
        end: "",
        most: 16,
        status: Status::Done,
        said: "accepted 1 2/10\n",
        said_past: "graph limit 19 8 outputs\n",
    },
    Grown {
        begin: "",
        before: "resource n",
        behind: "\n",
        middle: "",
        closing: "",
        end: "",
        most: 32,
        status: Status::Done,
        said: "accepted 0 0/1\n",
        said_past: "graph limit 33 10 resources\n",
    },
    Grown {
        begin: "",
        before: "process n",
        behind: " { }\n",
        middle: "",
        closing: "",
        end: "",
        most: 64,
        status: Status::Done,
        said: "accepted 0 0/1\n",
        said_past: "graph limit 65 9 processes\n",
    },
    Grown {
        begin: "input i(0) period 64\nprocess p {\n",
        before: " port n",
        behind: " from i () { }\n",
        middle: "",
        closing: "",
        end: "}\n",
        most: 64,
        status: Status::Done,
        said: "accepted 64 64/64\n",
        said_past: "graph limit 67 7 ports\n",
    },
    Grown {
        begin: "process p {\n",
        before: " var n",
        behind: " = 0\n",
        middle: "",
        closing: "",
        end: "}\n",
        most: 256,
        status: Status::Done,
        said: "accepted 0 0/1\n",
        said_past: "graph limit 258 6 variables\n",
    },
    Grown {
        begin: "input i(0) period 1\nprocess p { port a from i ()\n",
        before: " out n",
        behind: "(0)\n",
        middle: "",
        closing: "",
        end: "{ } }\n",
        most: 8,
        status: Status::Graph,
        said: "graph rate p.a.n0 zero\n",
        said_past: "graph limit 11 6 outs\n",
    },
    Grown {
        begin: "input i(0) period 100\nprocess p { port a from i () {\n",
        before: " let n",
        behind: " = 0\n",
        middle: "",
        closing: "",
        end: "} }\n",
        most: 16,
        status: Status::Done,
        said: "accepted 1 33/100\n",
        said_past: "graph limit 19 6 locals\n",
    },
    Grown {
        begin: "input i(0) period 100\nprocess p { port a from i () {\n",
        before: " # ",
        behind: "\n if 1 {\n",
        middle: "",
        closing: "}",
        end: "} }\n",
        most: 7,
        status: Status::Done,
        said: "accepted 1 15/100\n",
        said_past: "graph syntax 18 2\n",
    },
    Grown {
        begin: "input i(0) period 100\nprocess p { port a from i () {\n",
        before: " # ",
        behind: "\n repeat 1 max 1 {\n",
        middle: "",
        closing: "}",
        end: "} }\n",
        most: 7,
        status: Status::Done,
        said: "accepted 1 22/100\n",
        said_past: "graph syntax 18 2\n",
    },
    Grown {
        begin: "input i(0) period 100\nprocess p { port a from i () {\n let x = 0\n",
        before: " # ",
        behind: "\n + 1\n",
        middle: "",
        closing: "",
        end: "} }\n",
        most: 31,
        status: Status::Done,
        said: "accepted 1 65/100\n",
        said_past: "graph syntax 67 2\n",
    },
    Grown {
        begin: "input i(0) period 100\nprocess p { port a from i () {\n let x = 0\n",
        before: " # ",
        behind: "\n or 1\n",
        middle: "",
        closing: "",
        end: "} }\n",
        most: 31,
        status: Status::Done,
        said: "accepted 1 65/100\n",
        said_past: "graph syntax 67 2\n",
    },
    Grown {
        begin: "input i(0) period 100\nprocess p { port a from i () {\n let x =\n",
        before: " # ",
        behind: "\n(\n",
        middle: "1",
        closing: ")",
        end: "} }\n",
        most: 31,
        status: Status::Done,
        said: "accepted 1 3/100\n",
        said_past: "graph syntax 67 1\n",
    },
    Grown {
        begin: "input i(0) period 100\nprocess p { port a from i () {\n let x =\n",
        before: " # ",
        behind: "\n-\n",
        middle: "1",
        closing: "",
        end: "} }\n",
        most: 31,
        status: Status::Done,
        said: "accepted 1 34/100\n",
        said_past: "graph syntax 67 1\n",
    },
    Grown {
        begin: "input i(0) period 100\nprocess p { port a from i () {\n let x =\n",
        before: " # ",
        behind: "\nnot\n",
        middle: "1",
        closing: "",
        end: "} }\n",
        most: 31,
        status: Status::Done,
        said: "accepted 1 34/100\n",
        said_past: "graph syntax 67 1\n",
    },
];

/// Checks each text with as many lines as it may have, and with one more.
fn judge_grown(alloc: Global, texts: &[Grown]) -> Result<(), Wrong> {
    for (number, grown) in texts.iter().enumerate() {
        let most = grown.text(alloc, grown.most)?;
        check(alloc, number, most, grown.status, grown.said)?;
        let past = grown.text(alloc, grown.most.saturating_add(1))?;
        check(alloc, number, past, Status::Graph, grown.said_past)?;
    }
    Ok(())
}

#[test]
fn limits_hold_at_them_and_one_past(rt: HostRuntime) -> Result<(), Fail> {
    judge_grown(rt.alloc(), GROWN)?;
    Ok(())
}
