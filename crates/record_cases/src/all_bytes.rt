//! A record of which each name has all bytes, written and read again.

ghost use Rattle.std.specs.Prelude.{◌≡◌, ◌∷◌, [], IfOk};
ghost use Rattle.host_record.specs.Canonical.{IsCanonical};

use crate::lines::record_lines;
use case_rows::Fault;
use host_record::{
    Answer, Look, RecLib, RecVersion, Record, RecordFault, read_record, write_record,
};
use load_model::{List, Name, NoMemory};
use path_text::Abs;
use std::alloc::Global;

/// Whether the text of the record says what the record says.
pub fn is_read_again(alloc: Global) -> Result<bool, Fault> {
    let rec = all_bytes_record(alloc)?;
    let text = write_record(alloc, &rec)?;
    match read_record(alloc, text.as_bytes()) {
        Ok(again) => {
            let (before, after) = (record_lines(alloc, &rec)?, record_lines(alloc, &again)?);
            Ok(before.as_slice() == after.as_slice())
        }
        Err(RecordFault::Line(_)) => Ok(false),
        Err(RecordFault::NoMemory) => Err(Fault::NoMemory),
    }
}

fn all_bytes_record(alloc: Global) -> Result<Record, NoMemory>
    ensures { IfOk result IsCanonical }
{
    let interps = one(alloc, interp(alloc)?)?;
    let name = all_bytes(alloc)?;
    let libs = one(
        alloc,
        RecLib {
            name,
            needs: List::new(alloc),
        },
    )?;
    let version = all_bytes(alloc)?;
    let versions = one(alloc, RecVersion { lib: 0, version })?;
    let looks = one(alloc, all_bytes_look(alloc)?)?;
    Ok(Record {
        machine: 62,
        interps,
        libs,
        versions,
        looks,
    })
}

fn one<T: Drop>(alloc: Global, value: T) -> Result<List<T>, NoMemory>
    ensures { IfOk result (λ list. list ≡ value ∷ []) }
{
    let mut list = List::new(alloc);
    list.push(value)?;
    Ok(list)
}

fn interp(alloc: Global) -> Result<Abs, NoMemory> {
    match Abs::read(alloc, b"/lib/a b") {
        Ok(path) => Ok(path),
        Err(_) => Err(NoMemory),
    }
}

fn all_bytes_look(alloc: Global) -> Result<Look, NoMemory>
    ensures { IfOk result (λ look. look.lib ≡ 0) }
{
    let name = all_bytes(alloc)?;
    let version = all_bytes(alloc)?;
    let answer = all_bytes(alloc)?;
    Ok(Look {
        lib: 0,
        name,
        version: Some(version),
        call: true,
        answer: Answer::Version(answer),
    })
}

fn all_bytes(alloc: Global) -> Result<Name, NoMemory> {
    let mut bytes = Vec::new(alloc);
    for byte in 0..=255u8 {
        if bytes.push(byte).is_err() {
            return Err(NoMemory);
        }
    }
    Name::from_bytes(alloc, bytes.as_slice())
}
