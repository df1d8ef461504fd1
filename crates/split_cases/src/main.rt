//! Loads the programs of each case of a document, over files in memory, splits their objects, names
//! the libraries, and prints the split or the clash, or the names or the refusal, where they are
//! otherwise than the case wants.
#![tactic(auto)]

mod case;
mod lines;
mod running;

use case::BuildCase;
use case_rows::Fault;
use lines::{layout_lines, outcome_lines};
use load_files::{Case, cases_of, name_of, names_of, opener_of, setting_of, wanted_text};
use running::{Outcome, outcome_of};
use std::alloc::Global;
use std::io;
use toml::{Table, Value};

fn main(rt: HostRuntime) -> io::Result<()> {
    let text = io::read_to_string(rt.alloc(), rt.reader())?;
    match toml::table_from_str(rt.alloc(), text.as_str()) {
        Ok(table) => run_table(&rt, &table),
        Err(error) => println!(rt; "no document: {error}"),
    }
}

fn run_table(rt: &HostRuntime, table: &Table) -> io::Result<()> {
    match cases_of(table) {
        Ok(cases) => run_cases(rt, cases),
        Err(fault) => println!(rt; "no document of cases: {fault}"),
    }
}

fn run_cases(rt: &HostRuntime, cases: &[Value]) -> io::Result<()> {
    for case in cases {
        run_case(rt, case)?;
    }
    println!(rt; "{} cases", cases.len())
}

/// Runs a case, and prints what it came to where it differs.
fn run_case(rt: &HostRuntime, case: &Value) -> io::Result<()> {
    let name = name_of(case);
    match differing(rt.alloc(), case) {
        Ok(None) => Ok(()),
        Ok(Some(text)) => {
            let text = str::from_utf8(text.as_slice()).unwrap_or("no text");
            println!(rt; "{name}:\n{}", text.trim_end())
        }
        Err(fault) => println!(rt; "{name}: {fault}"),
    }
}

/// The lines of a case that wants others, of the split or else of the names.
fn differing(alloc: Global, value: &Value) -> Result<Option<Vec<u8>>, Fault> {
    let build = BuildCase::of(value)?;
    let outcome = outcome(alloc, &build, &build.files_alone())?;
    unwanted_lines(alloc, &build, &outcome)
}

fn unwanted_lines(
    alloc: Global,
    build: &BuildCase<'_>,
    outcome: &Outcome,
) -> Result<Option<Vec<u8>>, Fault> {
    match unwanted_split(alloc, build, outcome) {
        Ok(None) if !build.layout.is_empty() => unwanted_names(alloc, build, outcome),
        answer => answer,
    }
}

/// The lines of the split, unless they are wanted.
fn unwanted_split(
    alloc: Global,
    build: &BuildCase<'_>,
    outcome: &Outcome,
) -> Result<Option<Vec<u8>>, Fault> {
    let text = outcome_lines(alloc, outcome)?;
    unwanted(alloc, text, &build.files_alone())
}

/// The lines of the names, unless they are wanted.
fn unwanted_names(
    alloc: Global,
    build: &BuildCase<'_>,
    outcome: &Outcome,
) -> Result<Option<Vec<u8>>, Fault> {
    let text = layout_lines(alloc, outcome)?;
    unwanted(alloc, text, &build.layout_alone())
}

/// The text, unless it is the wanted one.
fn unwanted(alloc: Global, text: Vec<u8>, case: &Case<'_>) -> Result<Option<Vec<u8>>, Fault> {
    let wanted = wanted_text(alloc, case)?;
    if text.as_slice() == wanted.as_slice() {
        Ok(None)
    } else {
        Ok(Some(text))
    }
}

/// Loads the programs of a case, splits all objects and names the libraries.
fn outcome(alloc: Global, build: &BuildCase<'_>, case: &Case<'_>) -> Result<Outcome, Fault> {
    let mut opener = opener_of(alloc, case)?;
    let setting = setting_of(alloc, case)?;
    let names = names_of(alloc, build.names)?;
    outcome_of(
        alloc,
        &mut opener,
        &setting,
        build.programs,
        names.as_slice(),
    )
}
