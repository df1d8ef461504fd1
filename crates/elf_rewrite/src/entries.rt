//! The entries of the new dynamic table.
//!
//! System V gABI, Dynamic Section; the definition is `new_entries` of `two_files`.

ghost use Rattle.std.specs.Prelude.{◌≡◌, [], ◌∷◌, ◌++◌, IfOk, List, OnOk, drop, slice_index};
ghost use Rattle.byte_view.specs.declared.constants.TheConstants.{DT_NEEDED, DT_NULL};
ghost use Rattle.byte_view.specs.declared.dynamic.Entry.{Entry as OneEntry};
ghost use Rattle.byte_view.specs.Dynamic.{tagged};
ghost use Rattle.two_files.specs.Entries.{added_path, new_entries, new_value, rewritten, where_some};
ghost use Rattle.elf_rewrite.specs.Rewriting.{padded_entries};

use crate::places::NewPlaces;
use byte_view::Entry;
use byte_view::constants::{
    DT_NEEDED, DT_NULL, DT_RPATH, DT_RUNPATH, DT_SONAME, DT_STRSZ, DT_STRTAB,
};
use dyn_table::has_tag;
use load_model::NoMemory;
use std::alloc::Global;

/// Each entry with its new value, the needs by turns, and a run path that is wanted where there was
/// none.
#[tactic(auto, unfolding(two_files::specs::Entries::new_entries))]
pub(crate) fn new_entries(
    alloc: Global,
    places: &NewPlaces,
    entries: &[Entry],
) -> Result<Vec<Entry>, NoMemory>
    ensures { IfOk result (λ v. v.items ≡ new_entries places.now entries.now) }
{
    let mut out = rewritten(alloc, places, entries)?;
    push_path(&mut out, places, entries)?;
    Ok(out)
}

/// Entries with zeros up to the capacity of a table.
#[tactic(auto, using(crate::proofs::EntrySteps::padded_more, crate::proofs::EntrySteps::padded_full))]
pub(crate) fn pad(out: &mut Vec<Entry>, capacity: usize) -> Result<(), NoMemory>
    ensures { OnOk result (out.new.items ≡ padded_entries capacity out.old.items) }
{
    while out.len() < capacity {
        push(out, DT_NULL, 0)?;
    }
    Ok(())
}

/// Adds the end of a table.
pub(crate) fn end(out: &mut Vec<Entry>) -> Result<(), NoMemory>
    ensures { OnOk result (out.new.items ≡ out.old.items ++ tagged DT_NULL 0 ∷ []) }
{
    push(out, DT_NULL, 0)
}

#[tactic(auto, unfolding(two_files::specs::Entries::rewritten))]
fn rewritten(alloc: Global, places: &NewPlaces, entries: &[Entry]) -> Result<Vec<Entry>, NoMemory>
    ensures { IfOk result (λ v. v.items ≡ rewritten places.now places.now.needs entries.now) }
{
    let mut out = Vec::new(alloc);
    let mut turn = 0;
    for entry in entries {
        turn = push_rewritten(&mut out, places, turn, entry)?;
    }
    Ok(out)
}

/// Adds an entry with its new value, and answers how many needs are done.
#[tactic(auto, unfolding(two_files::specs::Entries::rewritten))]
fn push_rewritten(
    out: &mut Vec<Entry>,
    places: &NewPlaces,
    turn: usize,
    entry: &Entry,
) -> Result<usize, NoMemory>
    ensures { IfOk result (λ done. (rest : List OneEntry) → out.new.items
        ++ rewritten places.now (drop done places.now.needs) rest ≡ out.old.items
        ++ rewritten places.now (drop turn places.now.needs) (entry.now ∷ rest)) }
{
    if entry.tag == DT_NEEDED {
        return push_need(out, places, turn);
    }
    push_some(out, entry.tag, new_value(places, entry))?;
    Ok(turn)
}

/// Adds a need with the next place.
#[tactic(auto, using(crate::proofs::EntrySteps::next_need, crate::proofs::EntrySteps::no_need))]
fn push_need(out: &mut Vec<Entry>, places: &NewPlaces, turn: usize) -> Result<usize, NoMemory>
    ensures entry { OnOk result (out.new.items ≡ out.old.items
        ++ tagged DT_NEEDED (slice_index (drop turn places.now.needs) 0) ∷ []) }
    ensures turn { IfOk result (λ done. drop done places.now.needs
        ≡ drop 1 (drop turn places.now.needs)) }
{
    match places.needs.get(turn) {
        Some(place) => {
            push(out, DT_NEEDED, *place)?;
            Ok(turn + 1)
        }
        None => {
            push(out, DT_NEEDED, 0)?;
            Ok(turn)
        }
    }
}

/// The value of an entry that is no need, or none where it is dropped.
fn new_value(places: &NewPlaces, entry: &Entry) -> Option<u64>
    ensures { result ≡ new_value places.now entry.now }
{
    match entry.tag {
        DT_SONAME => places.soname,
        DT_RPATH => None,
        DT_RUNPATH => places.runpath,
        DT_STRTAB => Some(places.strings_at),
        DT_STRSZ => Some(places.strings_size),
        _ => Some(entry.value),
    }
}

fn push_path(out: &mut Vec<Entry>, places: &NewPlaces, entries: &[Entry]) -> Result<(), NoMemory>
    ensures { OnOk result (out.new.items ≡ out.old.items ++ added_path places.now entries.now) }
{
    if has_tag(DT_RUNPATH, entries) {
        return Ok(());
    }
    push_some(out, DT_RUNPATH, places.runpath)
}

fn push_some(out: &mut Vec<Entry>, tag: u64, value: Option<u64>) -> Result<(), NoMemory>
    ensures { OnOk result (out.new.items ≡ out.old.items ++ where_some tag value) }
{
    match value {
        Some(value) => push(out, tag, value),
        None => Ok(()),
    }
}

fn push(out: &mut Vec<Entry>, tag: u64, value: u64) -> Result<(), NoMemory>
    ensures { OnOk result (out.new.items ≡ out.old.items ++ tagged tag value ∷ []) }
{
    match out.push(Entry { tag, value }) {
        Ok(()) => Ok(()),
        Err(_) => Err(NoMemory),
    }
}
