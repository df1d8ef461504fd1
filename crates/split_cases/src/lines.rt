//! Splits, names and what keeps from them, as lines.

use crate::running::Outcome;
use case_rows::Fault;
use lib_closure::{ClosureStop, HostLib, Member, Split};
use load_model::{Name, escape};
use name_layout::{Layout, NameStop};
use path_text::Abs;
use std::alloc::Global;

/// The lines of a split, or the line of a clash.
pub fn outcome_lines(alloc: Global, outcome: &Outcome) -> Result<Vec<u8>, Fault> {
    match outcome {
        Outcome::Named(split, _) => split_lines(alloc, split),
        Outcome::Clash(stop) => stop_line(alloc, stop),
    }
}

/// The lines of the names of the libraries, or the line of the first refusal; none where there is
/// a clash.
pub fn layout_lines(alloc: Global, outcome: &Outcome) -> Result<Vec<u8>, Fault> {
    match outcome {
        Outcome::Named(split, Ok(layout)) => name_lines(alloc, split, layout),
        Outcome::Named(_, Err(stop)) => refusal_line(alloc, stop),
        Outcome::Clash(_) => Ok(Vec::new(alloc)),
    }
}

/// A line for each bundled library: its name and its path.
fn name_lines(alloc: Global, split: &Split, layout: &Layout) -> Result<Vec<u8>, Fault> {
    let mut text = Vec::new(alloc);
    for (lib, name) in split.libs.as_slice().iter().zip(layout.libs.as_slice()) {
        let line = line(alloc, b"name", &[name.as_bytes(), bytes(&lib.path)])?;
        text.extend_from_slice(line.as_slice())?;
    }
    Ok(text)
}

/// A line of the refusal's name and its evidence.
fn refusal_line(alloc: Global, stop: &NameStop) -> Result<Vec<u8>, Fault> {
    match stop {
        NameStop::OpenAlias(name, key) => {
            line(alloc, b"OpenAlias", &[name.as_bytes(), key.as_bytes()])
        }
        NameStop::OpenNameOnHostList(name) => {
            line(alloc, b"OpenNameOnHostList", &[name.as_bytes()])
        }
        NameStop::TwoOpenNames(path, one, other) => {
            let fields = [bytes(path), one.as_bytes(), other.as_bytes()];
            line(alloc, b"TwoOpenNames", fields.as_slice())
        }
        NameStop::NameClash(name, one, other) => {
            clash_line(alloc, b"NameClash", name, one, other)
        }
        NameStop::BadFileName(name) => line(alloc, b"BadFileName", &[name.as_bytes()]),
        NameStop::NoMemory => Err(Fault::NoMemory),
    }
}

/// A line for each program, bundled library and host library.
fn split_lines(alloc: Global, split: &Split) -> Result<Vec<u8>, Fault> {
    let mut text = Vec::new(alloc);
    add_members(alloc, &mut text, b"program", split.programs.as_slice())?;
    add_members(alloc, &mut text, b"lib", split.libs.as_slice())?;
    for host in split.hosts.as_slice() {
        add_host(alloc, &mut text, host)?;
    }
    Ok(text)
}

fn add_members(
    alloc: Global,
    text: &mut Vec<u8>,
    word: &[u8],
    members: &[Member],
) -> Result<(), Fault> {
    for member in members {
        let line = line(alloc, word, &[bytes(&member.path)])?;
        text.extend_from_slice(line.as_slice())?;
    }
    Ok(())
}

fn add_host(alloc: Global, text: &mut Vec<u8>, host: &HostLib) -> Result<(), Fault> {
    let line = line(alloc, b"host", &[host.name.as_bytes(), bytes(&host.path)])?;
    text.extend_from_slice(line.as_slice())?;
    Ok(())
}

/// A line of the clash's name and its evidence.
fn stop_line(alloc: Global, stop: &ClosureStop) -> Result<Vec<u8>, Fault> {
    match stop {
        ClosureStop::NoInterpreter(path) => line(alloc, b"NoInterpreter", &[bytes(path)]),
        ClosureStop::InterpreterUnlisted(path) => {
            line(alloc, b"InterpreterUnlisted", &[bytes(path)])
        }
        ClosureStop::ProgramNeeded(path) => line(alloc, b"ProgramNeeded", &[bytes(path)]),
        ClosureStop::HostRpath(path) => line(alloc, b"HostRpath", &[bytes(path)]),
        ClosureStop::HostNeedsUnlisted(path, name) => {
            line(alloc, b"HostNeedsUnlisted", &[bytes(path), name.as_bytes()])
        }
        ClosureStop::HostAlias(path, name) => {
            line(alloc, b"HostAlias", &[bytes(path), name.as_bytes()])
        }
        ClosureStop::HostNameClash(name, one, other) => {
            clash_line(alloc, b"HostNameClash", name, one, other)
        }
        ClosureStop::SplitNeed(path, name, one, other) => {
            let fields = [bytes(path), name.as_bytes(), bytes(one), bytes(other)];
            line(alloc, b"SplitNeed", fields.as_slice())
        }
        ClosureStop::NoMemory => Err(Fault::NoMemory),
    }
}

/// A line of a name and two paths.
fn clash_line(
    alloc: Global,
    word: &[u8],
    name: &Name,
    one: &Abs,
    other: &Abs,
) -> Result<Vec<u8>, Fault> {
    let fields = [name.as_bytes(), bytes(one), bytes(other)];
    line(alloc, word, fields.as_slice())
}

/// The bytes of a path.
fn bytes(path: &Abs) -> &[u8] {
    path.as_str().as_bytes()
}

/// A line of a word and fields.
fn line(alloc: Global, word: &[u8], fields: &[&[u8]]) -> Result<Vec<u8>, Fault> {
    let mut text = Vec::from_slice(alloc, word)?;
    for field in fields {
        text.push(b' ')?;
        let field = escape(alloc, field)?;
        text.extend_from_slice(field.as_bytes())?;
    }
    text.push(b'\n')?;
    Ok(text)
}
