//! Faults of files and of the sink, and commands that wait and read nothing.
use std::test::Fail;
use yartos::Status;
use yartos_rows::{BLINK, FaultRow, Files, judge_faults};

/// A read or a write that no row comes to.
const NEVER: u64 = 99;

/// A graph and its trace.
const RUN: Files = &[("g", BLINK), ("t", "0 tick 7\n")];

/// A set and its plan.
const PLAY: Files = &[("s", "task A 5 10\n"), ("p", "0 A 5\n10 A 5\n")];

/// A set that asks for more than there is.
const BUSY: Files = &[("s", "task A 5 10\ntask B 11 20\n")];

/// Commands on graphs.
const GRAPHS: &[FaultRow] = &[
    (
        &["run", "g", "t"],
        RUN,
        NEVER,
        (2, 3),
        Status::WriteFault,
        "run 0 5 p.a 1\nout",
    ),
    (
        &["run", "g", "t"],
        RUN,
        NEVER,
        (2, 2),
        Status::WriteFault,
        "run 0 5 p.a 1\nou",
    ),
    (
        &["run", "g", "t"],
        RUN,
        2,
        (NEVER, 0),
        Status::ReadFault,
        "",
    ),
    (
        &["run", "g", "t"],
        RUN,
        1,
        (NEVER, 0),
        Status::ReadFault,
        "",
    ),
    (
        &["run", "g", "u"],
        RUN,
        NEVER,
        (NEVER, 0),
        Status::ReadFault,
        "",
    ),
    (
        &["run", "u", "t"],
        RUN,
        NEVER,
        (NEVER, 0),
        Status::ReadFault,
        "",
    ),
    (
        &["check", "g"],
        RUN,
        NEVER,
        (1, 6),
        Status::WriteFault,
        "accept",
    ),
    (&["help"], RUN, NEVER, (1, 5), Status::WriteFault, "usage"),
    (
        &["form", "g"],
        RUN,
        NEVER,
        (2, 6),
        Status::WriteFault,
        "input tick(1) period 10\noutput",
    ),
];

#[test]
fn faults_of_a_graph_are_told(rt: HostRuntime) -> Result<(), Fail> {
    judge_faults(rt.alloc(), GRAPHS)?;
    Ok(())
}

/// Commands that wait: no file is read.
const WAITING: &[FaultRow] = &[(
    &["demo", "16"],
    RUN,
    1,
    (NEVER, 0),
    Status::NotYet,
    "notyet\n",
)];

#[test]
fn words_that_wait_are_answered_without_files(rt: HostRuntime) -> Result<(), Fail> {
    judge_faults(rt.alloc(), WAITING)?;
    Ok(())
}

/// Commands on sets.
const SETS: &[FaultRow] = &[
    (
        &["set", "u"],
        BUSY,
        NEVER,
        (NEVER, 0),
        Status::ReadFault,
        "",
    ),
    (&["set", "s"], BUSY, 1, (NEVER, 0), Status::ReadFault, ""),
    (
        &["set", "s"],
        BUSY,
        NEVER,
        (2, 4),
        Status::WriteFault,
        "overload load 21/20\narri",
    ),
    (
        &["replay", "u"],
        BUSY,
        NEVER,
        (NEVER, 0),
        Status::ReadFault,
        "",
    ),
    (&["replay", "s"], BUSY, 1, (NEVER, 0), Status::ReadFault, ""),
    (
        &["replay", "s"],
        BUSY,
        NEVER,
        (2, 4),
        Status::WriteFault,
        "run 0 5 A 1\nrun ",
    ),
];

#[test]
fn faults_of_a_set_are_told(rt: HostRuntime) -> Result<(), Fail> {
    judge_faults(rt.alloc(), SETS)?;
    Ok(())
}

/// Plays.
const PLAYS: &[FaultRow] = &[
    (
        &["play", "s", "u"],
        PLAY,
        NEVER,
        (NEVER, 0),
        Status::ReadFault,
        "",
    ),
    (
        &["play", "s", "p"],
        PLAY,
        2,
        (NEVER, 0),
        Status::ReadFault,
        "",
    ),
    (
        &["play", "s", "p"],
        PLAY,
        NEVER,
        (2, 3),
        Status::WriteFault,
        "run 0 5 A 1\nrun",
    ),
    (
        &["play", "s", "p"],
        PLAY,
        NEVER,
        (3, 0),
        Status::WriteFault,
        "run 0 5 A 1\nrun 10 15 A 2\n",
    ),
];

#[test]
fn faults_of_a_play_are_told(rt: HostRuntime) -> Result<(), Fail> {
    judge_faults(rt.alloc(), PLAYS)?;
    Ok(())
}
