//! Checks the tree of each case of a document as a host against the record that lies in it, and
//! prints the line that it comes to where it is another than the case wants. A case whose calls are
//! counted is besides checked with each of them failing.
#![tactic(auto)]

mod case;
mod checking;
mod trees;
mod turns;

use case::{Case, name_of};
use case_rows::Fault;
use checking::line_of;
use std::alloc::Global;
use std::io;
use toml::{Table, Value};
use turns::first_otherwise;

fn main(rt: HostRuntime) -> io::Result<()> {
    let text = io::read_to_string(rt.alloc(), rt.reader())?;
    match toml::table_from_str(rt.alloc(), text.as_str()) {
        Ok(table) => run_table(&rt, &table),
        Err(error) => println!(rt; "no document: {error}"),
    }
}

fn run_table(rt: &HostRuntime, table: &Table) -> io::Result<()> {
    let Some(Value::Array(cases)) = table.get("case") else {
        return println!(rt; "no document of cases");
    };
    for case in cases.as_slice() {
        run_case(rt, case)?;
    }
    println!(rt; "{} cases", cases.len())
}

/// Checks the host of a case, and prints what it came to where it differs.
fn run_case(rt: &HostRuntime, case: &Value) -> io::Result<()> {
    match differing(rt.alloc(), case) {
        Ok(None) => Ok(()),
        Ok(Some(text)) => {
            let text = str::from_utf8(text.as_slice()).unwrap_or("no text");
            println!(rt; "{}: {}", name_of(case), text.trim_end())
        }
        Err(fault) => println!(rt; "{}: {fault}", name_of(case)),
    }
}

/// The line of a case that wants another, or which of its calls fails otherwise than it may.
fn differing(alloc: Global, value: &Value) -> Result<Option<Vec<u8>>, Fault> {
    let case = Case::of(value)?;
    let line = line_of(alloc, &case, None)?;
    if !case.wants_line(line.as_slice()) {
        return Ok(Some(line));
    }
    first_otherwise(alloc, &case)
}
