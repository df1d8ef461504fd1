//! Reads files as a loader does, and makes objects, and prints each that differs from what a
//! document wants of it.
#![tactic(auto)]

mod document;
mod objects;

use case_files::{HashTables, altered, bytes_of, object_of};
use case_rows::Fault;
use document::{ChangedRow, Document, FaceRow, ObjectRow, Wanted, name_of};
use face_lines::{lines_text, push_line, told_text};
use objects::is_as_wanted;
use std::alloc::Global;
use std::io;
use toml::{Table, Value};

fn main(rt: HostRuntime) -> io::Result<()> {
    let text = io::read_to_string(rt.alloc(), rt.reader())?;
    match toml::table_from_str(rt.alloc(), text.as_str()) {
        Ok(table) => run_table(&rt, &table),
        Err(error) => println!(rt; "no document: {error}"),
    }
}

fn run_table(rt: &HostRuntime, table: &Table) -> io::Result<()> {
    match Document::of(table) {
        Ok(document) => {
            run_faces(rt, document.faces)?;
            run_objects(rt, document.objects)
        }
        Err(fault) => println!(rt; "no document of faces and objects: {fault}"),
    }
}

fn run_faces(rt: &HostRuntime, rows: &[Value]) -> io::Result<()> {
    let mut changed: usize = 0;
    for row in rows {
        changed = changed.saturating_add(run_face(rt, row)?);
    }
    println!(rt; "{} faces", rows.len())?;
    println!(rt; "{changed} changed files")
}

fn run_objects(rt: &HostRuntime, rows: &[Value]) -> io::Result<()> {
    for row in rows {
        print_differing(rt, name_of(row), differing_object(rt.alloc(), row))?;
    }
    println!(rt; "{} objects", rows.len())
}

/// Reads a file and all that is changed of it, and says how many these are.
fn run_face(rt: &HostRuntime, value: &Value) -> io::Result<usize> {
    let told = match FaceRow::of(value) {
        Ok(row) => return run_row(rt, name_of(value), &row),
        Err(fault) => Err(fault),
    };
    print_differing(rt, name_of(value), told)?;
    Ok(0)
}

fn run_row(rt: &HostRuntime, name: &str, row: &FaceRow<'_>) -> io::Result<usize> {
    let bytes = match bytes_of(rt.alloc(), row.file, HashTables::AsShaped) {
        Ok(bytes) => bytes,
        Err(fault) => {
            print_differing(rt, name, Err(fault))?;
            return Ok(0);
        }
    };
    let told = differing(rt.alloc(), bytes.as_slice(), &row.wanted);
    print_differing(rt, name, told)?;
    for changed in row.changed {
        let told = differing_change(rt.alloc(), bytes.as_slice(), changed);
        print_differing(rt, name_of(changed), told)?;
    }
    Ok(row.changed.len())
}

/// What is told of a file of which something else is wanted.
fn differing(alloc: Global, bytes: &[u8], wanted: &Wanted<'_>) -> Result<Option<Vec<u8>>, Fault> {
    let text = told_text(alloc, bytes)?;
    if text.as_slice() == wanted_text(alloc, wanted)?.as_slice() {
        Ok(None)
    } else {
        Ok(Some(text))
    }
}

/// The lines that are wanted, or the line of the flaw.
fn wanted_text(alloc: Global, wanted: &Wanted<'_>) -> Result<Vec<u8>, Fault> {
    let mut text = lines_text(alloc, wanted.lines)?;
    if let Some(flaw) = wanted.flaw {
        push_line(&mut text, flaw.as_bytes())?;
    }
    Ok(text)
}

/// The same of a file that is changed.
fn differing_change(alloc: Global, bytes: &[u8], value: &Value) -> Result<Option<Vec<u8>>, Fault> {
    let row = ChangedRow::of(value)?;
    let bytes = Vec::from_slice(alloc, bytes)?;
    let bytes = altered(alloc, bytes, row.cut, row.changes)?;
    differing(alloc, bytes.as_slice(), &row.wanted)
}

/// The digits of an object of which other bytes are wanted.
fn differing_object(alloc: Global, value: &Value) -> Result<Option<Vec<u8>>, Fault> {
    let row = ObjectRow::of(value)?;
    let object = object_of(alloc, row.shape, HashTables::AsShaped)?;
    if is_as_wanted(alloc, object.as_slice(), &row)? {
        Ok(None)
    } else {
        let digits = hex::encode(alloc, object.as_slice())?;
        Ok(Some(Vec::from_slice(alloc, digits.as_bytes())?))
    }
}

/// Prints what differs.
fn print_differing(
    rt: &HostRuntime,
    name: &str,
    told: Result<Option<Vec<u8>>, Fault>,
) -> io::Result<()> {
    match told {
        Ok(None) => Ok(()),
        Ok(Some(text)) => {
            let text = str::from_utf8(text.as_slice()).unwrap_or("what is no text");
            println!(rt; "{name}:\n{}", text.trim_end())
        }
        Err(fault) => println!(rt; "{name}: {fault}"),
    }
}
