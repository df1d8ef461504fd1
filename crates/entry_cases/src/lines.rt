//! What reading and checking a file comes to, as lines.

use case_rows::{Fault, Row, text_of};
use desk_entry::{
    CheckFault, DeskFault, DeskKey, Entries, check_entry, exec_word, read_entry, value_of,
};
use load_model::{List, Name, escape_onto};
use std::alloc::Global;

/// A line for each entry, or the fault. Where the case names an icon, a line for the program that is
/// started, one for the entry's icon, and one that says whether the entry fits.
pub fn said_lines(alloc: Global, case: &Row<'_>, bytes: &[u8]) -> Result<Vec<u8>, Fault> {
    match read_entry(alloc, bytes) {
        Ok(entries) => entry_lines(alloc, case, &entries),
        Err(fault) => fault_line(alloc, fault),
    }
}

fn entry_lines(alloc: Global, case: &Row<'_>, entries: &Entries) -> Result<Vec<u8>, Fault> {
    let mut text = Vec::new(alloc);
    for pair in entries.pairs.as_slice() {
        escape_onto(&mut text, pair.key.as_bytes())?;
        push_field(&mut text, pair.value.as_bytes())?;
        text.push(b'\n')?;
    }
    if let Some(icon) = case.text_if_any("icon")? {
        push_word(&mut text, b"starts", exec_word(entries))?;
        push_word(&mut text, b"shows", value_of(entries, b"Icon"))?;
        let programs = programs_of(alloc, case)?;
        let answer = check_entry(entries, programs.as_slice(), icon.as_bytes());
        text.extend_from_slice(check_line(answer))?;
    }
    Ok(text)
}

fn programs_of(alloc: Global, case: &Row<'_>) -> Result<List<Name>, Fault> {
    let mut programs = List::new(alloc);
    for program in case.list("programs")? {
        programs.push(Name::from_bytes(alloc, text_of(program)?.as_bytes())?)?;
    }
    Ok(programs)
}

fn push_word(text: &mut Vec<u8>, title: &[u8], word: Option<&[u8]>) -> Result<(), Fault> {
    text.extend_from_slice(title)?;
    match word {
        Some(word) => push_field(text, word)?,
        None => text.extend_from_slice(b" nothing")?,
    }
    Ok(text.push(b'\n')?)
}

/// Adds a space and a text, escaped.
fn push_field(text: &mut Vec<u8>, field: &[u8]) -> Result<(), Fault> {
    text.push(b' ')?;
    Ok(escape_onto(text, field)?)
}

fn check_line(answer: Result<(), CheckFault>) -> &'static [u8] {
    match answer {
        Ok(()) => b"fits\n",
        Err(CheckFault::MissingKey(key)) => missing_line(key),
        Err(CheckFault::ExecUnknown) => b"starts another\n",
        Err(CheckFault::IconDiffers) => b"shows another\n",
    }
}

fn missing_line(key: DeskKey) -> &'static [u8] {
    match key {
        DeskKey::KeyType => b"lacks Type\n",
        DeskKey::KeyName => b"lacks Name\n",
        DeskKey::KeyIcon => b"lacks Icon\n",
        DeskKey::KeyExec => b"lacks Exec\n",
    }
}

fn fault_line(alloc: Global, fault: DeskFault) -> Result<Vec<u8>, Fault> {
    let line = match fault {
        DeskFault::NotUtf8 => format!(in alloc; "not UTF-8\n")?,
        DeskFault::Line(number) => format!(in alloc; "line {number}\n")?,
        DeskFault::NoGroup => format!(in alloc; "no group\n")?,
        DeskFault::TwoGroups(number) => format!(in alloc; "second group at line {number}\n")?,
        DeskFault::TwoKeys(number) => format!(in alloc; "second key at line {number}\n")?,
        DeskFault::NoMemory => return Err(Fault::NoMemory),
    };
    Ok(Vec::from_slice(alloc, line.as_bytes())?)
}
