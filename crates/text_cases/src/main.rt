//! Makes the texts of a document, lines of refusals and lists of files, and prints each that is
//! other than its row wants.
#![tactic(auto)]

mod differing;
mod evidence;
mod files;
mod listing;
mod reading;

use case_rows::{Fault, Row};
use evidence::Evidence;
use listing::differing_list;
use load_model::Text;
use reading::refusal_of;
use refusals::{Refusal, refusal_text};
use std::alloc::Global;
use std::io;
use toml::{Table, Value};

fn main(rt: HostRuntime) -> io::Result<()> {
    let text = io::read_to_string(rt.alloc(), rt.reader())?;
    match toml::table_from_str(rt.alloc(), text.as_str()) {
        Ok(table) => {
            run_refusals(&rt, rows_of(&table, "refusal"))?;
            run_lists(&rt, rows_of(&table, "list"))
        }
        Err(error) => println!(rt; "no document: {error}"),
    }
}

/// The rows under a name; none where there is no list.
fn rows_of<'a>(table: &'a Table, name: &str) -> &'a [Value] {
    match table.get(name) {
        Some(Value::Array(rows)) => rows.as_slice(),
        _ => &[],
    }
}

fn run_refusals(rt: &HostRuntime, rows: &[Value]) -> io::Result<()> {
    for row in rows {
        print_differing(rt, name_of(row, "kind"), differing_line(rt.alloc(), row))?;
    }
    println!(rt; "{} refusals", rows.len())
}

fn run_lists(rt: &HostRuntime, rows: &[Value]) -> io::Result<()> {
    for row in rows {
        print_differing(rt, name_of(row, "name"), differing_list(rt.alloc(), row))?;
    }
    println!(rt; "{} lists", rows.len())
}

/// Prints the text of a row that wants another.
fn print_differing(
    rt: &HostRuntime,
    name: &str,
    differing: Result<Option<Text>, Fault>,
) -> io::Result<()> {
    match differing {
        Ok(None) => Ok(()),
        Ok(Some(text)) => {
            let text = str::from_utf8(text.as_bytes()).unwrap_or("no text");
            println!(rt; "{name}:\n{}", text.trim_end())
        }
        Err(fault) => println!(rt; "{name}: {fault}"),
    }
}

fn name_of<'a>(row: &'a Value, field: &str) -> &'a str {
    match row.as_table() {
        Some(fields) => match fields.get(field) {
            Some(Value::String(name)) => name.as_str(),
            _ => "a row without a name",
        },
        None => "a row that is no table",
    }
}

/// The line of a refusal that is to have another.
fn differing_line(alloc: Global, value: &Value) -> Result<Option<Text>, Fault> {
    let row = Row::of(value, &["kind", "difference", "texts", "numbers", "line"])?;
    let wanted = row.text("line")?;
    let line = line_of(alloc, &row)?;
    if line.as_bytes().strip_suffix(b"\n") == Some(wanted.as_bytes()) {
        Ok(None)
    } else {
        Ok(Some(line))
    }
}

/// The line of the refusal of a row.
fn line_of(alloc: Global, row: &Row<'_>) -> Result<Text, Fault> {
    let evidence = Evidence::of(row)?;
    let kind = row.text("kind")?;
    match refusal_of(alloc, kind, &evidence) {
        Ok(refusal) => said(alloc, &refusal),
        Err(fault) => Err(fault),
    }
}

/// The line that says a refusal.
fn said(alloc: Global, refusal: &Refusal) -> Result<Text, Fault> {
    Ok(refusal_text(alloc, refusal)?)
}
