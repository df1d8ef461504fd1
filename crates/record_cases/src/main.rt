//! Reads the text of each case of a document as a host record, and prints each that says something
//! else, or is refused elsewhere, than the case wants. Then a record whose names have all bytes is
//! written and read again.
#![tactic(auto)]

mod all_bytes;
mod lines;

use all_bytes::is_read_again;
use case_rows::{Fault, Row, text_of};
use host_record::{RecordFault, read_record};
use lines::record_lines;
use std::alloc::Global;
use std::io;
use toml::{Table, Value};

fn main(rt: HostRuntime) -> io::Result<()> {
    let text = io::read_to_string(rt.alloc(), rt.reader())?;
    match toml::table_from_str(rt.alloc(), text.as_str()) {
        Ok(table) => run_table(&rt, &table),
        Err(error) => println!(rt; "no document: {error}"),
    }
}

fn run_table(rt: &HostRuntime, table: &Table) -> io::Result<()> {
    let Some(Value::Array(cases)) = table.get("case") else {
        return println!(rt; "no document of cases");
    };
    for case in cases.as_slice() {
        run_case(rt, case)?;
    }
    println!(rt; "{} cases", cases.len())?;
    print_written(rt)
}

/// Says whether a record whose names have all bytes is read as it was written.
fn print_written(rt: &HostRuntime) -> io::Result<()> {
    match is_read_again(rt.alloc()) {
        Ok(true) => println!(rt; "all bytes are read as they were written"),
        Ok(false) => println!(rt; "all bytes are read as others"),
        Err(fault) => println!(rt; "all bytes: {fault}"),
    }
}

/// Reads the text of a case, and prints what it came to where it differs.
fn run_case(rt: &HostRuntime, case: &Value) -> io::Result<()> {
    match differing(rt.alloc(), case) {
        Ok(None) => Ok(()),
        Ok(Some(text)) => {
            let text = str::from_utf8(text.as_slice()).unwrap_or("no text");
            println!(rt; "{}:\n{}", name_of(case), text.trim_end())
        }
        Err(fault) => println!(rt; "{}: {fault}", name_of(case)),
    }
}

fn name_of(case: &Value) -> &str {
    match case.as_table() {
        Some(fields) => match fields.get("name") {
            Some(Value::String(name)) => name.as_str(),
            _ => "a case without a name",
        },
        None => "a case that is no table",
    }
}

/// The lines of a case that wants others.
fn differing(alloc: Global, value: &Value) -> Result<Option<Vec<u8>>, Fault> {
    let case = Row::of(value, &["name", "text", "says", "refused"])?;
    let lines = answer(alloc, case.text("text")?.as_bytes())?;
    let wanted = wanted_lines(alloc, &case)?;
    Ok(if lines.as_slice() == wanted.as_slice() {
        None
    } else {
        Some(lines)
    })
}

/// What the record of a text says, or the line that is refused.
fn answer(alloc: Global, text: &[u8]) -> Result<Vec<u8>, Fault> {
    match read_record(alloc, text) {
        Ok(rec) => record_lines(alloc, &rec),
        Err(RecordFault::Line(number)) => refused_line(alloc, u64::from(number)),
        Err(RecordFault::NoMemory) => Err(Fault::NoMemory),
    }
}

fn refused_line(alloc: Global, number: u64) -> Result<Vec<u8>, Fault> {
    let line = format!(in alloc; "refused at line {number}\n")?;
    Ok(Vec::from_slice(alloc, line.as_bytes())?)
}

fn wanted_lines(alloc: Global, case: &Row<'_>) -> Result<Vec<u8>, Fault> {
    if let Some(number) = case.number_if_any("refused")? {
        return refused_line(alloc, number);
    }
    let mut lines = Vec::new(alloc);
    for line in case.list("says")? {
        lines.extend_from_slice(text_of(line)?.as_bytes())?;
        lines.push(b'\n')?;
    }
    Ok(lines)
}
