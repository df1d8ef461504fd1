//! Reads the text of each case of a document as a configuration, and prints each that says something
//! else, or is refused for another reason, than the case wants.
#![tactic(auto)]

mod lines;

use case_rows::{Fault, Row, decoded, text_of};
use lines::said_lines;
use std::alloc::Global;
use std::io;
use toml::{Table, Value};

fn main(rt: HostRuntime) -> io::Result<()> {
    let text = io::read_to_string(rt.alloc(), rt.reader())?;
    match toml::table_from_str(rt.alloc(), text.as_str()) {
        Ok(table) => run_table(&rt, &table),
        Err(error) => println!(rt; "no document: {error}"),
    }
}

fn run_table(rt: &HostRuntime, table: &Table) -> io::Result<()> {
    let Some(Value::Array(cases)) = table.get("case") else {
        return println!(rt; "no document of cases");
    };
    for case in cases.as_slice() {
        run_case(rt, case)?;
    }
    println!(rt; "{} cases", cases.len())
}

/// Reads the text of a case, and prints what it came to where it differs.
fn run_case(rt: &HostRuntime, case: &Value) -> io::Result<()> {
    match differing(rt.alloc(), case) {
        Ok(None) => Ok(()),
        Ok(Some(text)) => {
            let text = str::from_utf8(text.as_slice()).unwrap_or("no text");
            println!(rt; "{}:\n{}", name_of(case), text.trim_end())
        }
        Err(fault) => println!(rt; "{}: {fault}", name_of(case)),
    }
}

fn name_of(case: &Value) -> &str {
    match case.as_table() {
        Some(fields) => match fields.get("name") {
            Some(Value::String(name)) => name.as_str(),
            _ => "a case without a name",
        },
        None => "a case that is no table",
    }
}

/// The lines of a case that wants others.
fn differing(alloc: Global, value: &Value) -> Result<Option<Vec<u8>>, Fault> {
    let case = Row::of(value, &["name", "text", "hex", "says"])?;
    let lines = said_lines(alloc, bytes_of(alloc, &case)?.as_slice())?;
    let wanted = wanted_lines(alloc, &case)?;
    Ok(if lines.as_slice() == wanted.as_slice() {
        None
    } else {
        Some(lines)
    })
}

/// The bytes of the file: a text, or digits where it is none.
fn bytes_of(alloc: Global, case: &Row<'_>) -> Result<Vec<u8>, Fault> {
    match case.text_if_any("hex")? {
        Some(digits) => decoded(alloc, digits),
        None => Ok(Vec::from_slice(alloc, case.text("text")?.as_bytes())?),
    }
}

fn wanted_lines(alloc: Global, case: &Row<'_>) -> Result<Vec<u8>, Fault> {
    let mut lines = Vec::new(alloc);
    for line in case.list("says")? {
        lines.extend_from_slice(text_of(line)?.as_bytes())?;
        lines.push(b'\n')?;
    }
    Ok(lines)
}
