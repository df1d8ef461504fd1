//! Load lists and refusals as lines.

use case_rows::Fault;
use load_model::{Obj, OpenFault, Run, escape};
use load_order::LoadStop;
use search_paths::SearchStop;
use std::alloc::{AllocError, Global};

/// A line for each object: its number and path, its loader, its phase, and where its needs went.
/// Then how many objects are of the start phase, and a line for each opened name: the name, the
/// object that it went to, and its local list.
pub fn run_text(alloc: Global, run: &Run) -> Result<Vec<u8>, Fault> {
    let mut text = Vec::new(alloc);
    let objects = run.objs.as_slice().iter().zip(run.targets.as_slice());
    for (number, (object, targets)) in objects.enumerate() {
        push_object(alloc, &mut text, number, object)?;
        push_numbers(alloc, &mut text, targets.as_slice())?;
    }
    text.extend_from_slice(format!(in alloc; "global {}\n", run.global)?.as_bytes())?;
    push_opens(alloc, &mut text, run)?;
    Ok(text)
}

fn push_object(
    alloc: Global,
    text: &mut Vec<u8>,
    number: usize,
    object: &Obj,
) -> Result<(), Fault> {
    let (path, loader, phase) = (object.path.as_str(), object.loader, object.phase);
    let line = format!(in alloc; "{number} {path} loader {loader} phase {phase} needs")?;
    Ok(text.extend_from_slice(line.as_bytes())?)
}

fn push_opens(alloc: Global, text: &mut Vec<u8>, run: &Run) -> Result<(), Fault> {
    let roots = run.roots.as_slice().iter().zip(run.locals.as_slice());
    for (name, (root, local)) in run.opens.as_slice().iter().zip(roots) {
        push_word(alloc, text, b"open", name.as_bytes())?;
        text.extend_from_slice(format!(in alloc; " root {root} local")?.as_bytes())?;
        push_numbers(alloc, text, local.as_slice())?;
    }
    Ok(())
}

/// Adds numbers and ends the line.
fn push_numbers(alloc: Global, text: &mut Vec<u8>, numbers: &[u32]) -> Result<(), AllocError> {
    for number in numbers {
        text.extend_from_slice(format!(in alloc; " {number}")?.as_bytes())?;
    }
    text.push(b'\n')?;
    Ok(())
}

/// A line of the refusal's name and its evidence.
pub fn stop_text(alloc: Global, stop: &LoadStop) -> Result<Vec<u8>, Fault> {
    match stop {
        LoadStop::NoProgram(path) => line(alloc, b"NoProgram", &[path.as_str().as_bytes()]),
        LoadStop::MissingLibrary { name, by } => {
            line(
                alloc,
                b"MissingLibrary",
                &[name.as_bytes(), by.as_str().as_bytes()],
            )
        }
        LoadStop::RelativeNeed { name, by } => {
            line(
                alloc,
                b"RelativeNeed",
                &[name.as_bytes(), by.as_str().as_bytes()],
            )
        }
        LoadStop::TokenInNeed { name, by } => {
            line(
                alloc,
                b"TokenInNeed",
                &[name.as_bytes(), by.as_str().as_bytes()],
            )
        }
        LoadStop::TooManyObjects(path) => {
            line(alloc, b"TooManyObjects", &[path.as_str().as_bytes()])
        }
        LoadStop::Search(stop) => search_text(alloc, stop),
        LoadStop::NoMemory => Err(Fault::NoMemory),
    }
}

fn search_text(alloc: Global, stop: &SearchStop) -> Result<Vec<u8>, Fault> {
    match stop {
        SearchStop::RelativeItem(item) => line(alloc, b"RelativeItem", &[item.as_bytes()]),
        SearchStop::TokenUnset(item) => line(alloc, b"TokenUnset", &[item.as_bytes()]),
        SearchStop::Open(OpenFault::Read) => line(alloc, b"Read", &[]),
        SearchStop::Open(OpenFault::Damaged { path, .. }) => {
            line(alloc, b"Damaged", &[path.as_str().as_bytes()])
        }
        SearchStop::Open(OpenFault::NoMemory) | SearchStop::NoMemory => Err(Fault::NoMemory),
    }
}

/// A line of a word and fields.
fn line(alloc: Global, word: &[u8], fields: &[&[u8]]) -> Result<Vec<u8>, Fault> {
    let mut text = Vec::from_slice(alloc, word)?;
    for field in fields {
        push_word(alloc, &mut text, b"", field)?;
    }
    text.push(b'\n')?;
    Ok(text)
}

/// Adds a word, a space, and a field as it stands in a line.
fn push_word(alloc: Global, text: &mut Vec<u8>, word: &[u8], field: &[u8]) -> Result<(), Fault> {
    text.extend_from_slice(word)?;
    text.extend_from_slice(b" ")?;
    let field = escape(alloc, field)?;
    Ok(text.extend_from_slice(field.as_bytes())?)
}
