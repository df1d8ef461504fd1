//! The names of version indexes.

ghost use Rattle.std.specs.Prelude.{◌≡◌, ◌++◌, None, map, IfOk};
ghost use Rattle.std.specs.List.{range_with_len};
ghost use Rattle.byte_view.specs.Dynamic.{value_of};
ghost use Rattle.version_tables.specs.Indexes.{AreFirst, all_noted, index_count_by, name_in_asked, name_in_definition, noted, place_in};

use crate::asked::Asked;
use crate::definitions::Definition;
use byte_view::Entry;
use byte_view::constants::{DT_VERSYM, VERSYM_VERSION};
use dyn_table::value_of;
use std::alloc::{AllocError, Global};

/// How many version indexes the symbols may have. Without a table of them none is looked up.
pub(crate) fn index_count(entries: &[Entry]) -> usize
    ensures { result ≡ index_count_by (value_of DT_VERSYM entries.now) }
{
    match value_of(DT_VERSYM, entries) {
        Some(_) => usize::from(VERSYM_VERSION) + 1,
        None => 0,
    }
}

/// Notes the string place of a name for an index that has none.
#[tactic(auto, unfolding(crate::specs::Indexes::noted))]
fn note(places: &mut Vec<Option<u32>>, index: u16, name: u32)
    ensures { places.new.items ≡ noted places.old.items (index, name) }
{
    let index = usize::from(index);
    if index < places.len() && places[index].is_none() {
        places[index] = Some(name);
    }
}

fn note_definitions(places: &mut Vec<Option<u32>>, definitions: &[Definition])
    ensures { places.new.items
        ≡ all_noted places.old.items (map name_in_definition definitions.now) }
{
    for definition in definitions {
        note(places, definition.index, definition.name);
    }
}

fn note_asks(places: &mut Vec<Option<u32>>, asks: &[Asked])
    ensures { places.new.items ≡ all_noted places.old.items (map name_in_asked asks.now) }
{
    for asked in asks {
        note(places, asked.index, asked.name);
    }
}

fn no_names(alloc: Global, size: usize) -> Result<Vec<Option<u32>>, AllocError>
    ensures { IfOk result (λ places. places.items ≡ map (λ _. None) (range_with_len 0 size)) }
{
    (0..size).map(|_| None).collect(alloc)
}

/// The string place of the name of each version index below a size: the first definition's, or the
/// first ask's.
pub(crate) fn first_names(
    alloc: Global,
    size: usize,
    definitions: &[Definition],
    asks: &[Asked],
) -> Result<Vec<Option<u32>>, AllocError>
    ensures { IfOk result
        (λ places. AreFirst size places.items
        (map name_in_definition definitions.now ++ map name_in_asked asks.now)) }
{
    let mut places = no_names(alloc, size)?;
    note_definitions(&mut places, definitions);
    note_asks(&mut places, asks);
    Ok(places)
}

/// The string place of the name of a version index.
#[tactic(auto, unfolding(crate::specs::Indexes::place_in))]
pub(crate) fn place_in(places: &[Option<u32>], index: u16) -> Option<u32>
    ensures { result ≡ place_in places.now index }
{
    let index = usize::from(index);
    if index < places.len() {
        places[index]
    } else {
        None
    }
}
