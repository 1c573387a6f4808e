//! Words, against all forms.
use std::alloc::{AllocError, Global};
use std::test::Fail;
use yartos::Status;
use yartos_rows::{BLINK, Wrong, expect};

/// What is written where the words are no listed form.
const USAGE: &str =
    "usage: yartos form G, tasks G, check G, run G T, stop G T N, set S, play S P, replay S, demo N\n";

/// What words ask for: nothing, since they are no listed form; a command that isn't built yet; or one that judges this many files,
/// which is answered so where the shelf holds them.
#[derive(Clone, Copy)]
enum Asked {
    Misuse,
    Later,
    Judges(usize, Status, &'static str),
}

const FORM: Asked = Asked::Judges(1, Status::Done, BLINK);

const TASKS: Asked = Asked::Judges(1, Status::Done, "task p.a 5 10\n");

const CHECK: Asked = Asked::Judges(1, Status::Done, "accepted 1 5/10\n");

const RUN: Asked = Asked::Judges(2, Status::Done, "end 0\n");

const SET: Asked = Asked::Judges(1, Status::Done, "accepted 2 5/10\n");

const REPLAY: Asked = Asked::Judges(1, Status::Done, "accepted 2 5/10\n");

const PLAY: Asked = Asked::Judges(2, Status::Done, "run 0 2 A 1\nend 2\n");

/// The files by their names and texts, each with the place in which commands name it: graphs and a set, then a trace and a plan.
const FILES: &[(usize, &str, &str)] = &[
    (1, "g", BLINK),
    (1, "", BLINK),
    (1, "s", "task A 2 5\ntask B 1 10\n"),
    (2, "t", ""),
    (2, "p", "0 A 2\n"),
];

/// Lines of words with one space between them: a word may be empty.
const LINES: &[(&str, Asked)] = &[
    ("form g", FORM),
    ("tasks g", TASKS),
    ("check g", CHECK),
    ("run g t", RUN),
    ("stop g t 7", Asked::Judges(2, Status::Done, "at 7\n")),
    (
        "stop g t 12345678",
        Asked::Judges(2, Status::Done, "at 12345678\n"),
    ),
    (
        "stop g t 00000000",
        Asked::Judges(2, Status::Done, "at 0\n"),
    ),
    ("set s", SET),
    ("play s p", PLAY),
    ("replay s", REPLAY),
    ("demo 1", Asked::Later),
    ("demo 16", Asked::Later),
    ("demo 00000001", Asked::Later),
    ("form ", FORM),
    ("run  t", RUN),
    ("", Asked::Misuse),
    ("form", Asked::Misuse),
    ("form g t", Asked::Misuse),
    ("form -g", Asked::Misuse),
    ("form -", Asked::Misuse),
    ("Form g", Asked::Misuse),
    ("forms g", Asked::Misuse),
    ("for g", Asked::Misuse),
    ("tasks -g", Asked::Misuse),
    ("check g t", Asked::Misuse),
    ("check --", Asked::Misuse),
    ("run g", Asked::Misuse),
    ("run g t u", Asked::Misuse),
    ("run -g t", Asked::Misuse),
    ("run g -t", Asked::Misuse),
    ("stop g t", Asked::Misuse),
    ("stop g t x", Asked::Misuse),
    ("stop g t 1x", Asked::Misuse),
    ("stop g t -1", Asked::Misuse),
    ("stop g t ", Asked::Misuse),
    ("stop g t 123456789", Asked::Misuse),
    ("stop -g t 1", Asked::Misuse),
    ("stop g -t 1", Asked::Misuse),
    ("set -s", Asked::Misuse),
    ("play s -p", Asked::Misuse),
    ("replay s p", Asked::Misuse),
    ("replay -s", Asked::Misuse),
    ("demo 0", Asked::Misuse),
    ("demo 17", Asked::Misuse),
    ("demo 000000001", Asked::Misuse),
    ("--help", Asked::Misuse),
    ("help", Asked::Misuse),
];

/// The files that are named in the first places, this many of them.
fn first_files(
    alloc: Global,
    files: &[(usize, &str, &str)],
    places: usize,
) -> Result<Vec<(String, Vec<u8>)>, AllocError> {
    let mut first = Vec::new(alloc);
    for (place, name, text) in files {
        if *place <= places {
            first.push((
                String::from_str(alloc, name)?,
                Vec::from_slice(alloc, text.as_bytes())?,
            ))?;
        }
    }
    Ok(first)
}

/// The answer where the shelf holds the files that are named in the first places, this many of them.
fn answer_of(asked: Asked, places: usize) -> (Status, &'static str) {
    match asked {
        Asked::Misuse => (Status::Usage, USAGE),
        Asked::Later => (Status::NotYet, "notyet\n"),
        Asked::Judges(files, status, text) => {
            if places < files {
                (Status::ReadFault, "")
            } else {
                (status, text)
            }
        }
    }
}

/// Asks words of an empty shelf, of one with the files that are named first, and of one with all files.
fn check(alloc: Global, number: usize, words: &[&str], asked: Asked) -> Result<(), Wrong> {
    for places in 0..3 {
        let files = first_files(alloc, FILES, places)?;
        let (status, text) = answer_of(asked, places);
        expect(alloc, number, words, files, status, text)?;
    }
    Ok(())
}

/// Checks each line.
fn judge_lines(alloc: Global, lines: &[(&str, Asked)]) -> Result<(), Wrong> {
    for (number, (line, asked)) in lines.iter().enumerate() {
        let mut words = Vec::new(alloc);
        for word in line.split(' ') {
            words.push(word)?;
        }
        check(alloc, number, &words, *asked)?;
    }
    Ok(())
}

#[test]
fn words_are_tested_against_all_forms(rt: HostRuntime) -> Result<(), Fail> {
    judge_lines(rt.alloc(), LINES)?;
    check(rt.alloc(), 0, &[], Asked::Misuse)?;
    Ok(())
}
