//! Answers, one after another, on one sink.
use std::test::Fail;
use yartos::Status;
use yartos_rows::{BLINK, Files, ask, held};
use yt_io::MemSink;

/// A graph under `g`, its trace under `t`, and a graph of nothing under `e`.
const FILES: Files = &[("g", BLINK), ("t", "0 tick 7\n"), ("e", "# nothing\n\n")];

/// Words, and the status where the sink's fourth write fails: three lines are written, none, and then the first of more.
const ASKED: &[(&[&str], Status)] = &[
    (&["run", "g", "t"], Status::Done),
    (&["form", "e"], Status::Done),
    (&["check", "g"], Status::WriteFault),
];

#[test]
fn each_line_is_one_write(rt: HostRuntime) -> Result<(), Fail> {
    let alloc = rt.alloc();
    let mut sink = MemSink::with_room(alloc, 100, vec![in alloc; (4, 0)]?)?;
    for (words, status) in ASKED {
        let ended = ask(
            alloc,
            words,
            held(alloc, FILES)?,
            Vec::new(alloc),
            &mut sink,
        )?;
        assert_eq!(rt; ended, *status);
        assert_eq!(rt;
            sink.bytes(),
            b"run 0 5 p.a 1\nout 10 led 8\nend 10\n".as_slice()
        );
    }
    Ok(())
}
