//! What the folder of this machine answers.

use crate::step::{Step, below, ended, faulty, said};
use path_text::{Abs, Rel};
use ports::{Failed, OutDir, RootState};
use real_files::RealOut;
use std::alloc::Global;
use std::io;

pub fn answer(
    alloc: Global,
    out: &mut RealOut<&HostRuntime>,
    folder: &Abs,
    step: Step<'_>,
) -> io::Result<String> {
    match step.verb {
        "root" => said(alloc, root(out, &below(alloc, folder, step.name)?)),
        "begin" => said(alloc, begin(alloc, out, step)?),
        "append" => said(alloc, ended(out.append(step.name.as_bytes()))),
        "finish" => said(alloc, ended(out.finish())),
        "end" => {
            out.give_up();
            said(alloc, "Ok")
        }
        "faults" => Ok(format!(in alloc; "{}", out.faults())?),
        _ => Err(faulty()),
    }
}

fn root(out: &mut RealOut<&HostRuntime>, path: &Abs) -> &'static str {
    match out.root(path) {
        Ok(RootState::Empty) => "Empty",
        Ok(RootState::NotEmpty) => "NotEmpty",
        Err(Failed) => "Failed",
    }
}

/// Begins a file, which may be run where the line says `executable` behind its name.
fn begin(
    alloc: Global,
    out: &mut RealOut<&HostRuntime>,
    step: Step<'_>,
) -> io::Result<&'static str> {
    match Rel::read(alloc, step.name.as_bytes()) {
        Ok(path) => Ok(ended(out.begin(&path, step.text == "executable"))),
        Err(_) => Err(faulty()),
    }
}
