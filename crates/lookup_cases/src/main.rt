//! Looks references up in files, by their hash tables and among all their symbols, and prints each
//! that goes to another symbol than a document wants.
#![tactic(auto)]

mod document;
mod lookups;

use case_rows::Fault;
use document::{LookupRow, lookups_of, name_of};
use lookups::differing;
use std::io;
use toml::{Table, Value};

fn main(rt: HostRuntime) -> io::Result<()> {
    let text = io::read_to_string(rt.alloc(), rt.reader())?;
    match toml::table_from_str(rt.alloc(), text.as_str()) {
        Ok(table) => run_table(&rt, &table),
        Err(error) => println!(rt; "no document: {error}"),
    }
}

fn run_table(rt: &HostRuntime, table: &Table) -> io::Result<()> {
    match lookups_of(table) {
        Ok(rows) => run_rows(rt, rows),
        Err(fault) => println!(rt; "no document of look-ups: {fault}"),
    }
}

fn run_rows(rt: &HostRuntime, rows: &[Value]) -> io::Result<()> {
    let mut offers: usize = 0;
    for row in rows {
        offers = offers.saturating_add(run_row(rt, row)?);
    }
    println!(rt; "{} files", rows.len())?;
    println!(rt; "{offers} offers")
}

/// Looks the references of a row up, and says how many these are.
fn run_row(rt: &HostRuntime, value: &Value) -> io::Result<usize> {
    match LookupRow::of(value) {
        Ok(row) => {
            print_differing(rt, name_of(value), differing(rt.alloc(), &row))?;
            Ok(row.offers.len())
        }
        Err(fault) => {
            print_differing(rt, name_of(value), Err(fault))?;
            Ok(0)
        }
    }
}

/// Prints the lines of what differs.
fn print_differing(rt: &HostRuntime, name: &str, lines: Result<Vec<u8>, Fault>) -> io::Result<()> {
    match lines {
        Ok(lines) if lines.is_empty() => Ok(()),
        Ok(lines) => {
            let text = str::from_utf8(lines.as_slice()).unwrap_or("what is no text");
            println!(rt; "{name}:\n{}", text.trim_end())
        }
        Err(fault) => println!(rt; "{name}: {fault}"),
    }
}
