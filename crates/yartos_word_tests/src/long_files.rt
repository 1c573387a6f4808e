//! Files at the limit of their length, and one byte past it.
use std::alloc::Global;
use std::test::Fail;
use yartos::Status;
use yartos_rows::{Wrong, expect};

/// The words, the length of the graph and of the trace, which are spaces, the status, and the printed text.
type LongRow = (&'static [&'static str], usize, usize, Status, &'static str);

const LONG: &[LongRow] = &[
    (
        &["check", "g"],
        16_777_217,
        0,
        Status::Long,
        "long file 1\n",
    ),
    (
        &["run", "g", "t"],
        16_777_216,
        16_777_217,
        Status::Long,
        "long file 2\n",
    ),
    (
        &["run", "g", "t"],
        16_777_216,
        16_777_216,
        Status::Done,
        "end 0\n",
    ),
    (
        &["check", "g"],
        16_777_216,
        0,
        Status::Done,
        "accepted 0 0/1\n",
    ),
];

/// Checks each row.
fn judge_long(alloc: Global, rows: &[LongRow]) -> Result<(), Wrong> {
    for (number, (words, graph, trace, status, text)) in rows.iter().enumerate() {
        let files = vec![in alloc;
            (String::from_str(alloc, "g")?, vec![in alloc; b' '; *graph]?),
            (String::from_str(alloc, "t")?, vec![in alloc; b' '; *trace]?),
        ]?;
        expect(alloc, number, words, files, *status, text)?;
    }
    Ok(())
}

#[test]
fn long_files_are_told(rt: HostRuntime) -> Result<(), Fail> {
    judge_long(rt.alloc(), LONG)?;
    Ok(())
}
