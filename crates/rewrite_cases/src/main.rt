//! Rewrites made files of a tree, and prints each that becomes another than a document wants.
#![tactic(auto)]

mod document;
mod fitting;
mod rewriting;

use case_files::{HashTables, altered, has_pieces, object_of};
use case_rows::Fault;
use document::{Case, cases_of, change_of, name_of};
use elf_rewrite::RewriteStop;
use face_lines::{lines_text, told_text};
use object_rewriting::RewritingStop;
use rewriting::{Outcome, rewritten, tree_of};
use std::alloc::Global;
use std::io;
use toml::{Table, Value};

fn main(rt: HostRuntime) -> io::Result<()> {
    let text = io::read_to_string(rt.alloc(), rt.reader())?;
    match toml::table_from_str(rt.alloc(), text.as_str()) {
        Ok(table) => run_table(&rt, &table),
        Err(error) => println!(rt; "no document: {error}"),
    }
}

fn run_table(rt: &HostRuntime, table: &Table) -> io::Result<()> {
    match cases_of(table) {
        Ok(cases) => run_cases(rt, cases),
        Err(fault) => println!(rt; "no document of cases: {fault}"),
    }
}

fn run_cases(rt: &HostRuntime, cases: &[Value]) -> io::Result<()> {
    for case in cases {
        run_case(rt, case)?;
    }
    println!(rt; "{} cases", cases.len())
}

/// Runs a case, and prints what it came to where it differs.
fn run_case(rt: &HostRuntime, case: &Value) -> io::Result<()> {
    let name = name_of(case);
    match differing(rt.alloc(), case) {
        Ok(None) => Ok(()),
        Ok(Some(text)) => {
            let text = str::from_utf8(text.as_slice()).unwrap_or("no text");
            println!(rt; "{name}:\n{}", text.trim_end())
        }
        Err(fault) => println!(rt; "{name}: {fault}"),
    }
}

/// The lines of a case that wants others.
fn differing(alloc: Global, value: &Value) -> Result<Option<Vec<u8>>, Fault> {
    let case = Case::of(value)?;
    let text = answer(alloc, &case)?;
    if text.as_slice() == lines_text(alloc, case.wants)?.as_slice() {
        Ok(None)
    } else {
        Ok(Some(text))
    }
}

/// What comes of a case: the length of the new file and its face, or why there is none.
fn answer(alloc: Global, case: &Case<'_>) -> Result<Vec<u8>, Fault> {
    let object = object_of(alloc, case.shape, HashTables::AsShaped)?;
    let bytes = altered(alloc, object, None, case.changes)?;
    let change = change_of(alloc, case)?;
    let now = altered(alloc, bytes.clone()?, None, case.later)?;
    let mut tree = tree_of(alloc, now.as_slice(), case.fails)?;
    match rewritten(alloc, bytes.as_slice(), &mut tree, &change)? {
        Outcome::File(file) => file_lines(alloc, file.as_bytes(), case.pieces),
        Outcome::Stop(RewritingStop::Rewrite(stop)) => stop_line(alloc, stop),
        Outcome::Stop(RewritingStop::Changed) => one_line(alloc, "Changed\n"),
        Outcome::Stop(RewritingStop::Read) => one_line(alloc, "Read\n"),
        Outcome::Stop(RewritingStop::NoMemory) => Err(Fault::NoMemory),
        Outcome::Unfit => one_line(alloc, "the change does not fit\n"),
    }
}

fn file_lines(alloc: Global, file: &[u8], pieces: &[Value]) -> Result<Vec<u8>, Fault> {
    if !has_pieces(alloc, file, pieces)? {
        return one_line(alloc, "other bytes\n");
    }
    let count = file.len();
    let mut text = one_line(alloc, format!(in alloc; "{count} bytes\n")?.as_str())?;
    text.extend_from_slice(told_text(alloc, file)?.as_slice())?;
    Ok(text)
}

fn stop_line(alloc: Global, stop: RewriteStop) -> Result<Vec<u8>, Fault> {
    match stop {
        RewriteStop::TableOverlap(m, n) => {
            one_line(alloc, format!(in alloc; "TableOverlap {m} {n}\n")?.as_str())
        }
        RewriteStop::NoRoom => one_line(alloc, "NoRoom\n"),
        RewriteStop::TooManyHeaders => one_line(alloc, "TooManyHeaders\n"),
        RewriteStop::StringsTooLong => one_line(alloc, "StringsTooLong\n"),
        RewriteStop::TooLarge(len) => {
            one_line(alloc, format!(in alloc; "TooLarge {len}\n")?.as_str())
        }
        RewriteStop::NoMemory => Err(Fault::NoMemory),
    }
}

fn one_line(alloc: Global, line: &str) -> Result<Vec<u8>, Fault> {
    Ok(Vec::from_slice(alloc, line.as_bytes())?)
}
