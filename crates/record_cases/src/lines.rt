//! What a record says, as lines of its fields in their order.

use case_rows::Fault;
use host_record::{Answer, Look, RecLib, RecVersion, Record};
use load_model::{Name, escape_onto};
use std::alloc::Global;

/// A line for the machine, and one for each interpreter, library, version and look.
pub fn record_lines(alloc: Global, rec: &Record) -> Result<Vec<u8>, Fault> {
    let mut text = Vec::new(alloc);
    text.extend_from_slice(format!(in alloc; "machine {}\n", rec.machine)?.as_bytes())?;
    for path in rec.interps.as_slice() {
        text.extend_from_slice(b"interpreter")?;
        push_field(&mut text, path.as_str().as_bytes())?;
        text.push(b'\n')?;
    }
    push_libs(&mut text, rec.libs.as_slice())?;
    push_versions(alloc, &mut text, rec.versions.as_slice())?;
    push_looks(alloc, &mut text, rec.looks.as_slice())?;
    Ok(text)
}

fn push_libs(text: &mut Vec<u8>, libs: &[RecLib]) -> Result<(), Fault> {
    for lib in libs {
        text.extend_from_slice(b"library")?;
        push_field(text, lib.name.as_bytes())?;
        text.extend_from_slice(b" needs")?;
        push_fields(text, lib.needs.as_slice())?;
        text.push(b'\n')?;
    }
    Ok(())
}

fn push_versions(alloc: Global, text: &mut Vec<u8>, versions: &[RecVersion]) -> Result<(), Fault> {
    for version in versions {
        text.extend_from_slice(format!(in alloc; "version {}", version.lib)?.as_bytes())?;
        push_field(text, version.version.as_bytes())?;
        text.push(b'\n')?;
    }
    Ok(())
}

fn push_looks(alloc: Global, text: &mut Vec<u8>, looks: &[Look]) -> Result<(), Fault> {
    for look in looks {
        text.extend_from_slice(format!(in alloc; "look {}", look.lib)?.as_bytes())?;
        push_field(text, look.name.as_bytes())?;
        push_version(text, &look.version)?;
        text.extend_from_slice(if look.call { b" call" } else { b" plain" })?;
        push_answer(text, &look.answer)?;
        text.push(b'\n')?;
    }
    Ok(())
}

fn push_version(text: &mut Vec<u8>, version: &Option<Name>) -> Result<(), Fault> {
    match version {
        Some(name) => push_field(text, name.as_bytes()),
        None => Ok(text.extend_from_slice(b" unversioned")?),
    }
}

fn push_answer(text: &mut Vec<u8>, answer: &Answer) -> Result<(), Fault> {
    match answer {
        Answer::Nothing => Ok(text.extend_from_slice(b" finds nothing")?),
        Answer::Plain => Ok(text.extend_from_slice(b" finds it")?),
        Answer::Version(name) => {
            text.extend_from_slice(b" finds it as")?;
            push_field(text, name.as_bytes())
        }
    }
}

fn push_fields(text: &mut Vec<u8>, names: &[Name]) -> Result<(), Fault> {
    for name in names {
        push_field(text, name.as_bytes())?;
    }
    Ok(())
}

/// Adds a space and a text, escaped.
fn push_field(text: &mut Vec<u8>, field: &[u8]) -> Result<(), Fault> {
    text.push(b' ')?;
    Ok(escape_onto(text, field)?)
}
