//! A record is read line by line, in one pass. Definition: `specs/Grammar.antt`.

ghost use Rattle.std.specs.Prelude.{◌≡◌, ℕ, IfOk, List};
ghost use Rattle.host_record.specs.Canonical.{IsCanonical, IsOfBytes};
ghost use Rattle.host_record.specs.Reached.{record_so_far};
ghost use Rattle.host_record.specs.Grammar.{IsReadAs, IsReadingOf, IsRefusedAtLine, Refuses, Says, record_text};
ghost use Rattle.host_record.specs.declared.records.Record.{Record as Told};

use crate::fields::cut;
use crate::lines::Section;
use crate::records::{RecLib, Record};
use crate::taking::Reading;
use load_model::{List, NoMemory};
use std::alloc::Global;

/// Why a text is no record: the first line that is refused, from 1 on.
#[derive(Clone, Copy, PartialEq, Eq, Debug)]
pub enum RecordFault {
    Line(u32),
    NoMemory,
}

/// The record that the text says, or the first line that is refused.
///
/// A missing last line is refused at the number that it would have. A text of 2^32 - 1 lines or
/// more is answered as want of memory, unless a line before is refused.
pub fn read_record(alloc: Global, text: &[u8]) -> Result<Record, RecordFault>
    ensures answer { IsReadingOf text.now result }
    // A text that says a record is read as it, and a refused line is answered, unless memory is
    // refused.
    ensures exact { (r : Told) → Says text.now r → IsReadAs r result }
    ensures exact_line { (n : ℕ) → Refuses text.now n → IsRefusedAtLine n result }
    // What was written is read again.
    ensures again { (r : Told)
        → IsOfBytes r → IsCanonical r → text.now ≡ record_text r → IsReadAs r result }
{
    read_lines(alloc, text)
}

fn read_lines(alloc: Global, text: &[u8]) -> Result<Record, RecordFault>
    ensures { IsReadingOf text.now result }
{
    let mut reading = Reading::new(alloc);
    let mut number: u32 = 1;
    let mut rest = text;
    'lines: while !rest.is_empty() {
        let Some((line, more)) = cut(rest, b'\n') else {
            return Err(RecordFault::Line(number));
        };
        match reading.take_text(alloc, line) {
            Ok(true) => {}
            Ok(false) => return Err(RecordFault::Line(number)),
            Err(_) => return Err(RecordFault::NoMemory),
        }
        if number == u32::MAX {
            return Err(RecordFault::NoMemory);
        }
        number += 1;
        rest = more;
    }
    if reading.section != Section::Done {
        return Err(RecordFault::Line(number));
    }
    match finished(alloc, reading) {
        Ok(rec) => Ok(rec),
        Err(_) => Err(RecordFault::NoMemory),
    }
}

/// The record of what was said.
fn finished(alloc: Global, reading: Reading) -> Result<Record, NoMemory>
    ensures { IfOk result (λ rec. rec ≡ record_so_far reading) }
{
    let Reading {
        section: _,
        machine,
        interps,
        names: _,
        libs,
        versions,
        looks,
    } = reading;
    Ok(Record {
        machine,
        interps,
        libs: listed(alloc, libs)?,
        versions,
        looks,
    })
}

/// The same libraries.
fn listed(alloc: Global, libs: Vec<RecLib>) -> Result<List<RecLib>, NoMemory>
    ensures { IfOk result (λ list. list ≡ libs.items) }
{
    let mut list = List::new(alloc);
    for lib in libs {
        list.push(lib)?;
    }
    Ok(list)
}
