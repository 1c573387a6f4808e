//! The program: gives the process's words, the files of the system and standard output to the top call, and ends with the
//! status's code.
#![tactic(auto)]

use std::env;
use std::io::ErrorKind;
use std::process::ExitCode;
use std::rt::Env;
use yartos::{Status, yartos};
use yt_io::{HostShelf, HostSink};

/// The words behind the program's name, or the status of a run that can't have them.
fn words<R: Env + AllocGlobal>(rt: &R) -> Result<Vec<String>, Status> {
    let args = match env::args(rt) {
        Ok(args) => args,
        Err(e) if e.kind() == ErrorKind::OutOfMemory => return Err(Status::NoMemory),
        Err(_) => return Err(Status::Usage),
    };
    args.skip(1)
        .collect(rt.alloc())
        .map_err(|_| Status::NoMemory)
}

fn main(rt: HostRuntime) -> ExitCode {
    let status = match words(&rt) {
        Ok(words) => yartos(
            rt.alloc(),
            &words,
            &mut HostShelf::new(&rt),
            &mut HostSink::new(&rt),
        ),
        Err(status) => status,
    };
    ExitCode::from(status.code())
}
