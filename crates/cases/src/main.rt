//! Calls the program once for each case of a document, over a tree, a folder and a sink in memory,
//! and prints each case that ends otherwise than it wants. Lets each call of some cases fail in
//! turn.
#![tactic(auto)]

mod case;
mod outside;
mod turns;
mod wants;

use case::{Case, Document, METHODS, name_of};
use case_files::EACH_WAY;
use case_rows::Fault;
use ports::MemFile;
use std::alloc::Global;
use std::io;
use toml::{Table, Value};
use turns::{Turns, ending_of, turns_of};
use wants::{Ending, is_as_wanted};

fn main(rt: HostRuntime) -> io::Result<()> {
    let text = io::read_to_string(rt.alloc(), rt.reader())?;
    match toml::table_from_str(rt.alloc(), text.as_str()) {
        Ok(table) => run_table(&rt, &table),
        Err(error) => println!(rt; "no document: {error}"),
    }
}

fn run_table(rt: &HostRuntime, table: &Table) -> io::Result<()> {
    match Document::of(table) {
        Ok(document) => run_document(rt, &document),
        Err(fault) => println!(rt; "no document of cases: {fault}"),
    }
}

fn run_document(rt: &HostRuntime, document: &Document<'_>) -> io::Result<()> {
    for case in document.cases {
        run_case(rt, document, case)?;
    }
    println!(rt; "{} cases", document.cases.len())?;
    for case in document.turns {
        run_turns(rt, document, case)?;
    }
    Ok(())
}

/// Runs a case, and prints it where it differs.
fn run_case<'a>(rt: &HostRuntime, document: &Document<'a>, case: &'a Value) -> io::Result<()> {
    let name = name_of(case);
    match differing(rt.alloc(), document, case) {
        Ok(None) => Ok(()),
        Ok(Some(ending)) => print_ending(rt, name, &ending),
        Err(fault) => println!(rt; "{name}: {fault}"),
    }
}

/// How a case ends that wants to end otherwise, with the first hash tables with which it does.
fn differing<'a>(
    alloc: Global,
    document: &Document<'a>,
    case: &'a Value,
) -> Result<Option<Ending>, Fault> {
    let mut case = Case::of(document, case)?;
    if !case.each_table {
        return differing_with(alloc, &case);
    }
    for tables in EACH_WAY {
        case.tables = tables;
        if let Some(ending) = differing_with(alloc, &case)? {
            return Ok(Some(ending));
        }
    }
    Ok(None)
}

/// The same with the hash tables of a case.
fn differing_with(alloc: Global, case: &Case<'_>) -> Result<Option<Ending>, Fault> {
    let ending = ending_of(alloc, case, None)?;
    if is_as_wanted(alloc, case, &ending)? {
        Ok(None)
    } else {
        Ok(Some(ending))
    }
}

fn print_ending(rt: &HostRuntime, name: &str, ending: &Ending) -> io::Result<()> {
    println!(rt; "{name}: {}", ending.status_name())?;
    println!(rt; "  {}", ending.line().trim_end())?;
    print_files(rt, ending.finished())
}

fn print_files(rt: &HostRuntime, files: &[MemFile]) -> io::Result<()> {
    for file in files {
        let (path, length) = (file.path.as_str(), file.bytes.as_bytes().len());
        let mark = if file.executable { "x" } else { "-" };
        println!(rt; "  {mark} {length} {path}")?;
    }
    Ok(())
}

/// Lets each call of a case fail in turn, and prints how many calls of each method there were.
fn run_turns<'a>(rt: &HostRuntime, document: &Document<'a>, case: &'a Value) -> io::Result<()> {
    let name = name_of(case);
    match Case::of(document, case) {
        Ok(case) => {
            print!(rt; "{name}:")?;
            print_turns(rt, &case)
        }
        Err(fault) => println!(rt; "{name}: {fault}"),
    }
}

fn print_turns(rt: &HostRuntime, case: &Case<'_>) -> io::Result<()> {
    for method in METHODS {
        let method_name = method.name();
        match turns_of(rt.alloc(), case, method) {
            Ok(Turns::Failed(count)) => print!(rt; " {method_name} {count}")?,
            Ok(Turns::Otherwise(number)) => print!(rt; " {method_name} not as it may at {number}")?,
            Err(fault) => print!(rt; " {method_name} {fault}")?,
        }
    }
    println!(rt; "")
}
