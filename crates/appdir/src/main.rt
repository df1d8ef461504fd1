//! The program `appdir`: hands its words, and the real tree, folder and sink, to the call that does
//! the work.
#![tactic(auto)]

use appdir_cli::{Status, appdir_main, exit_number, status_name};
use real_files::{RealOut, RealSink, RealTree};
use std::io::ErrorKind;
use std::process::ExitCode;
use std::{env, io};

fn main(rt: HostRuntime) -> ExitCode {
    let status = run(&rt);
    match status {
        Status::Done | Status::Refused | Status::Usage => {}
        Status::ReadFailed | Status::WriteFailed | Status::NoMemory | Status::PrintFailed => {
            let name = status_name(status);
            // where standard error takes nothing, the exit number says it still
            let _ = eprintln!(rt; "appdir: {name}");
        }
    }
    ExitCode::from(exit_number(status))
}

/// Runs the command over the files and the standard output of this machine.
fn run(rt: &HostRuntime) -> Status {
    let Ok(words) = words(rt) else {
        return Status::NoMemory;
    };
    let mut tree = RealTree::new(rt);
    let mut out = RealOut::new(rt);
    let mut sink = RealSink::new(rt);
    let status = appdir_main(rt.alloc(), words.as_slice(), &mut tree, &mut out, &mut sink);
    out.give_up();
    status
}

/// The words after the program's name. Words that are not UTF-8 make no command, and stand for no
/// words at all.
fn words(rt: &HostRuntime) -> io::Result<Vec<String>> {
    match env::args(rt) {
        Ok(words) => Ok(words.skip(1).collect(rt.alloc())?),
        Err(error) if error.kind() == ErrorKind::InvalidData => Ok(Vec::new(rt.alloc())),
        Err(error) => Err(error),
    }
}
