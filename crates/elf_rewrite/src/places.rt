//! Where the new texts stand in the string table, for each entry that names one. The definitions
//! are in `specs/NewTable.antt`.

ghost use Rattle.std.specs.Prelude.{◌≡◌, ◌<◌, IfOk, length};
ghost use Rattle.dyn_table.specs.Table.{IsTableOf};
ghost use Rattle.elf_rewrite.specs.NewTable.{name_place, need_places, need_values, new_place, place_instead};

use crate::texts::text_of;
use byte_view::Entry;
use byte_view::constants::DT_NEEDED;
use dyn_table::Dyn;
use load_model::{Name, NoMemory};
use std::alloc::Global;
use std::marker::Model;
use strtab_grow::Grown;

/// What the new entries have as their values.
#[derive(Drop)]
pub(crate) struct NewPlaces {
    pub needs: Vec<u64>,
    pub soname: Option<u64>,
    pub runpath: Option<u64>,
    pub strings_at: u64,
    pub strings_size: u64,
}

impl Model for NewPlaces {
    ghost use Rattle.two_files.specs.Entries.{Places};

    ghost Value = { Places };

    ghost view = { λ p. record {
      needs = p.needs.items;
      soname = p.soname;
      runpath = p.runpath;
      strings_at = p.strings_at;
      strings_size = p.strings_size;
    } };
}

/// The string places of the needs, in order.
pub(crate) fn need_values(alloc: Global, entries: &[Entry]) -> Result<Vec<u64>, NoMemory>
    ensures { IfOk result (λ values. values.items ≡ need_values entries.now) }
{
    let mut values = Vec::new(alloc);
    for entry in entries {
        if entry.tag == DT_NEEDED {
            let Ok(()) = values.push(entry.value) else {
                return Err(NoMemory);
            };
        }
    }
    Ok(values)
}

/// The string place of a new text.
pub(crate) fn new_place(grown: &Grown, new: &[u8]) -> u64
    ensures { result ≡ new_place grown.now new.now }
{
    grown.place(new).unwrap_or(0)
}

/// The string place of a text in place of the one at `at`, which stays if the texts are equal.
pub(crate) fn place_instead(table: &Dyn, bytes: &[u8], grown: &Grown, at: u64, new: &Name) -> u64
    requires { IsTableOf table.now bytes.now }
    ensures { result ≡ place_instead bytes.now grown.now at new.now }
{
    if text_of(table, bytes, at) == new.as_bytes() {
        at
    } else {
        new_place(grown, new.as_bytes())
    }
}

/// The same of a text that may be missing.
pub(crate) fn name_place(
    table: &Dyn,
    bytes: &[u8],
    grown: &Grown,
    old: Option<u64>,
    new: &Option<Name>,
) -> Option<u64>
    requires { IsTableOf table.now bytes.now }
    ensures { result ≡ name_place bytes.now grown.now old new.now }
{
    match (old, new) {
        (_, None) => None,
        (None, Some(new)) => Some(new_place(grown, new.as_bytes())),
        (Some(at), Some(new)) => Some(place_instead(table, bytes, grown, at, new)),
    }
}

/// The same of each need.
pub(crate) fn need_places(
    alloc: Global,
    table: &Dyn,
    bytes: &[u8],
    grown: &Grown,
    olds: &[u64],
    news: &[Name],
) -> Result<Vec<u64>, NoMemory>
    requires table { IsTableOf table.now bytes.now }
    requires same { length olds.now ≡ length news.now }
    ensures { IfOk result (λ places. places.items ≡ need_places bytes.now grown.now olds.now
        news.now) }
{
    let mut places = Vec::new(alloc);
    for i in 0..news.len() {
        let place = place_instead(table, bytes, grown, olds[i], &news[i]);
        let Ok(()) = places.push(place) else {
            return Err(NoMemory);
        };
    }
    Ok(places)
}
