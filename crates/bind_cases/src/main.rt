//! Binds the references of the program of each case of a document, over files in memory, and prints
//! the bindings or the refusal where they are otherwise than the case wants.
#![tactic(auto)]

mod lines;
mod places;

use case_rows::Fault;
use lines::{bind_lines, stop_line};
use load_files::{
    Case, cases_of, name_of, names_of, opener_of, program_of, setting_of, wanted_text,
};
use load_model::Opener;
use loader_replay::replay;
use places::report_of;
use std::alloc::Global;
use std::io;
use toml::{Table, Value};

fn main(rt: HostRuntime) -> io::Result<()> {
    let text = io::read_to_string(rt.alloc(), rt.reader())?;
    match toml::table_from_str(rt.alloc(), text.as_str()) {
        Ok(table) => run_table(&rt, &table),
        Err(error) => println!(rt; "no document: {error}"),
    }
}

fn run_table(rt: &HostRuntime, table: &Table) -> io::Result<()> {
    match cases_of(table) {
        Ok(cases) => run_cases(rt, cases),
        Err(fault) => println!(rt; "no document of cases: {fault}"),
    }
}

fn run_cases(rt: &HostRuntime, cases: &[Value]) -> io::Result<()> {
    for case in cases {
        run_case(rt, case)?;
    }
    println!(rt; "{} cases", cases.len())
}

/// Runs a case, and prints what it came to where it differs.
fn run_case(rt: &HostRuntime, case: &Value) -> io::Result<()> {
    let name = name_of(case);
    match differing(rt.alloc(), case) {
        Ok(None) => Ok(()),
        Ok(Some(text)) => {
            let text = str::from_utf8(text.as_slice()).unwrap_or("no text");
            println!(rt; "{name}:\n{}", text.trim_end())
        }
        Err(fault) => println!(rt; "{name}: {fault}"),
    }
}

/// The lines of a case that wants others.
fn differing(alloc: Global, value: &Value) -> Result<Option<Vec<u8>>, Fault> {
    let case = Case::of(value)?;
    let text = answer(alloc, &case)?;
    let wanted = wanted_text(alloc, &case)?;
    if text.as_slice() == wanted.as_slice() {
        Ok(None)
    } else {
        Ok(Some(text))
    }
}

/// Loads the program of a case with the names that it opens, and binds all references.
fn answer(alloc: Global, case: &Case<'_>) -> Result<Vec<u8>, Fault> {
    let mut opener = opener_of(alloc, case)?;
    let setting = setting_of(alloc, case)?;
    let start = program_of(alloc, case)?;
    let opens = names_of(alloc, case.opens)?;
    match replay(alloc, &mut opener, &setting, &start, opens.as_slice()) {
        Ok(replay) => {
            let text = report_of(alloc, opener.faces(), &replay)?;
            bind_lines(alloc, text.as_bytes())
        }
        Err(stop) => stop_line(alloc, &stop),
    }
}
