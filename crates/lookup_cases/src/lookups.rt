//! Look-ups in one file.

ghost use Rattle.std.specs.Prelude.{◌<◌, ◌^◌, length};

use crate::document::{LookupRow, OfferRow};
use case_files::{HashTables, bytes_of};
use case_rows::Fault;
use elf_face::{Loaded, read_loaded};
use load_model::Offers;
use std::alloc::Global;

/// A line for each reference that goes to another symbol than is wanted.
pub fn differing(alloc: Global, row: &LookupRow<'_>) -> Result<Vec<u8>, Fault> {
    let bytes = bytes_of(alloc, row.file, HashTables::AsShaped)?;
    let Ok(loaded) = read_loaded(alloc, bytes.as_slice()) else {
        return Err(Fault::Field("file"));
    };
    let mut lines = Vec::new(alloc);
    for value in row.offers {
        push_differing(alloc, &mut lines, &loaded, &OfferRow::of(value)?)?;
    }
    Ok(lines)
}

/// Adds a line if the reference does: its name, and the symbols that it goes to by the tables and
/// by the face.
fn push_differing(
    alloc: Global,
    lines: &mut Vec<u8>,
    loaded: &Loaded,
    row: &OfferRow<'_>,
) -> Result<(), Fault>
    requires tables { length loaded.now.tables.offered.syms < 2 ^ 32 }
    requires face { length loaded.now.face.syms < 2 ^ 32 }
{
    let by_tables = found_in(&loaded.tables, row);
    let by_face = found_in(&loaded.face, row);
    if by_tables != row.at || by_face != row.at {
        let name = row.name;
        let line = format!(in alloc; "{name} {by_tables} {by_face}\n")?;
        lines.extend_from_slice(line.as_bytes())?;
    }
    Ok(())
}

/// The symbol that the reference goes to, 0 where it goes nowhere.
fn found_in<F: Offers>(offers: &F, row: &OfferRow<'_>) -> u32
    requires { length (F.offered offers.now).syms < 2 ^ 32 }
{
    let version = match row.version {
        Some(version) => Some(version.as_bytes()),
        None => None,
    };
    offers
        .offer(row.name.as_bytes(), version, row.class)
        .unwrap_or(0)
}
