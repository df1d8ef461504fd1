//! The dynamic table of a made file.
//!
//! System V gABI, Dynamic Section.

ghost use Rattle.std.specs.Prelude.{◌≡◌, ◌+◌, ◌++◌, ◌∷◌, [], cond, length, map, replicate, OnOk, IfOk};
ghost use Rattle.elf_shape.specs.Versions.{files_of as file_names, is_none_of};
ghost use Rattle.elf_shape.specs.Texts.{string_place};
ghost use Rattle.byte_view.specs.Dynamic.{tagged, entries_bytes, entry_bytes};
ghost use Rattle.elf_make.specs.DynamicTable.{where_wanted, naming, name_entries, table_entries, version_entries, end_entries, entries_of, dynamic_size};

use crate::parts::{Parts, Places};
use byte_view::Entry;
use byte_view::constants::{
    DT_GNU_HASH, DT_HASH, DT_NEEDED, DT_NULL, DT_RPATH, DT_RUNPATH, DT_SONAME, DT_STRSZ, DT_STRTAB,
    DT_SYMBOLIC, DT_SYMENT, DT_SYMTAB, DT_VERDEF, DT_VERDEFNUM, DT_VERNEED, DT_VERNEEDNUM,
    DT_VERSYM, SYM_SIZE,
};
use elf_shape::Shape;
use elf_shape::numbers::push_longs;
use elf_shape::strings::Strings;
use elf_shape::versions::{Versions, files_of};
use load_model::{Ask, List, Name, NoMemory};
use std::alloc::Global;

/// Appends an entry.
fn push_entry(out: &mut List<Entry>, tag: u64, value: u64) -> Result<(), NoMemory>
    ensures { OnOk result (out.new ≡ out.old ++ tagged tag value ∷ []) }
{
    out.push(Entry { tag, value })
}

/// Appends an entry where it is wanted.
fn push_wanted(out: &mut List<Entry>, wanted: bool, tag: u64, value: u64) -> Result<(), NoMemory>
    ensures { OnOk result (out.new ≡ out.old ++ where_wanted wanted tag value) }
{
    if wanted {
        push_entry(out, tag, value)?;
    }
    Ok(())
}

/// Appends the entry that names a text, where there is one.
fn push_naming(
    out: &mut List<Entry>,
    texts: &Strings,
    tag: u64,
    text: &Option<Name>,
) -> Result<(), NoMemory>
    ensures { OnOk result (out.new ≡ out.old ++ naming texts.now tag text.now) }
{
    if let Some(text) = text {
        push_entry(out, tag, texts.place(text.as_bytes()) as u64)?;
    }
    Ok(())
}

/// Appends the entries that name the needed libraries.
fn push_needs(out: &mut List<Entry>, texts: &Strings, needs: &[Name]) -> Result<(), NoMemory>
    ensures { OnOk result
        (out.new ≡ out.old
        ++ map (λ need. tagged DT_NEEDED (string_place texts.now need)) needs.now) }
{
    for need in needs {
        push_entry(out, DT_NEEDED, texts.place(need.as_bytes()) as u64)?;
    }
    Ok(())
}

/// Appends how it is searched.
fn push_search(out: &mut List<Entry>, shape: &Shape, texts: &Strings) -> Result<(), NoMemory>
    ensures { OnOk result
        (out.new
        ≡ out.old
        ++ (naming texts.now DT_RPATH shape.now.rpath
        ++ (naming texts.now DT_RUNPATH shape.now.runpath
        ++ where_wanted shape.now.symbolic DT_SYMBOLIC 0))) }
{
    push_naming(out, texts, DT_RPATH, &shape.rpath)?;
    push_naming(out, texts, DT_RUNPATH, &shape.runpath)?;
    push_wanted(out, shape.symbolic, DT_SYMBOLIC, 0)
}

/// Appends what the file needs, what it is called, and how it is searched.
#[tactic(auto, unfolding(crate::specs::DynamicTable::name_entries))]
fn push_names(out: &mut List<Entry>, shape: &Shape, texts: &Strings) -> Result<(), NoMemory>
    ensures { OnOk result (out.new ≡ out.old ++ name_entries shape.now texts.now) }
{
    push_needs(out, texts, shape.needs.as_slice())?;
    push_naming(out, texts, DT_SONAME, &shape.soname)?;
    push_search(out, shape, texts)
}

/// Appends where its strings and symbols are, of which the strings have this size.
fn push_symbols(out: &mut List<Entry>, places: &Places, size: u64) -> Result<(), NoMemory>
    ensures { OnOk result
        (out.new
        ≡ out.old
        ++ tagged DT_STRTAB places.now.strings ∷ tagged DT_SYMTAB places.now.symbols
        ∷ tagged DT_STRSZ size ∷ tagged DT_SYMENT SYM_SIZE ∷ []) }
{
    push_entry(out, DT_STRTAB, places.strings)?;
    push_entry(out, DT_SYMTAB, places.symbols)?;
    push_entry(out, DT_STRSZ, size)?;
    push_entry(out, DT_SYMENT, SYM_SIZE)
}

/// Appends where its hash tables, strings and symbols are.
#[tactic(auto, unfolding(crate::specs::DynamicTable::table_entries))]
fn push_tables(
    out: &mut List<Entry>,
    shape: &Shape,
    parts: &Parts,
    places: &Places,
) -> Result<(), NoMemory>
    ensures { OnOk result (out.new ≡ out.old ++ table_entries shape.now parts.now places.now) }
{
    push_wanted(out, shape.sysv, DT_HASH, places.sysv)?;
    push_wanted(out, shape.gnu, DT_GNU_HASH, places.gnu)?;
    push_symbols(out, places, parts.strings.as_bytes().len() as u64)
}

/// Appends where the definitions are, where there are any, and how many.
fn push_verdef(out: &mut List<Entry>, definitions: &[Name], place: u64) -> Result<(), NoMemory>
    ensures { OnOk result
        (out.new
        ≡ out.old
        ++ cond (is_none_of definitions.now) []
        (tagged DT_VERDEF place ∷ tagged DT_VERDEFNUM (1 + length definitions.now) ∷ [])) }
{
    if definitions.is_empty() {
        return Ok(());
    }
    push_entry(out, DT_VERDEF, place)?;
    push_entry(out, DT_VERDEFNUM, 1 + definitions.len() as u64)
}

/// Appends where the needed versions are, where there are any, and of how many files.
fn push_verneed(
    alloc: Global,
    out: &mut List<Entry>,
    needed: &[Ask],
    place: u64,
) -> Result<(), NoMemory>
    ensures { OnOk result
        (out.new
        ≡ out.old
        ++ cond (is_none_of needed.now) []
        (tagged DT_VERNEED place ∷ tagged DT_VERNEEDNUM (length (file_names needed.now)) ∷ [])) }
{
    if needed.is_empty() {
        return Ok(());
    }
    let files = files_of(alloc, needed)?;
    push_entry(out, DT_VERNEED, place)?;
    push_entry(out, DT_VERNEEDNUM, files.as_slice().len() as u64)
}

/// Appends where its versions are.
#[tactic(auto, unfolding(crate::specs::DynamicTable::version_entries))]
fn push_versions(
    alloc: Global,
    out: &mut List<Entry>,
    versions: &Versions,
    places: &Places,
) -> Result<(), NoMemory>
    ensures { OnOk result (out.new ≡ out.old ++ version_entries versions.now places.now) }
{
    push_wanted(out, versions.is_versioned(), DT_VERSYM, places.versym)?;
    push_verdef(out, versions.definitions.as_slice(), places.verdef)?;
    push_verneed(alloc, out, versions.needed.as_slice(), places.verneed)
}

/// Appends entries of zeros.
fn push_spare(out: &mut List<Entry>, spare: u32) -> Result<(), NoMemory>
    ensures { OnOk result (out.new ≡ out.old ++ replicate spare (tagged DT_NULL 0)) }
{
    for _ in 0..spare {
        push_entry(out, DT_NULL, 0)?;
    }
    Ok(())
}

/// Appends the end, and the spare entries.
#[tactic(auto, unfolding(crate::specs::DynamicTable::end_entries))]
fn push_end(out: &mut List<Entry>, spare: u32) -> Result<(), NoMemory>
    ensures { OnOk result (out.new ≡ out.old ++ end_entries spare) }
{
    push_entry(out, DT_NULL, 0)?;
    push_spare(out, spare)
}

/// Appends the entries that name texts, and those of the tables.
fn push_named(
    out: &mut List<Entry>,
    shape: &Shape,
    texts: &Strings,
    parts: &Parts,
    places: &Places,
) -> Result<(), NoMemory>
    ensures { OnOk result
        (out.new
        ≡ out.old
        ++ (name_entries shape.now texts.now ++ table_entries shape.now parts.now places.now)) }
{
    push_names(out, shape, texts)?;
    push_tables(out, shape, parts, places)
}

/// The entries of the dynamic table.
#[tactic(auto, unfolding(crate::specs::DynamicTable::entries_of))]
pub(crate) fn entries_of(
    alloc: Global,
    shape: &Shape,
    versions: &Versions,
    texts: &Strings,
    parts: &Parts,
    places: &Places,
) -> Result<List<Entry>, NoMemory>
    ensures { IfOk result
        (λ entries. entries ≡ entries_of shape.now versions.now texts.now parts.now places.now) }
{
    let mut entries = List::new(alloc);
    push_named(&mut entries, shape, texts, parts, places)?;
    push_versions(alloc, &mut entries, versions, places)?;
    push_end(&mut entries, shape.spare)?;
    Ok(entries)
}

/// Appends the bytes of the entries.
pub(crate) fn push_entries(out: &mut Vec<u8>, entries: &[Entry]) -> Result<(), NoMemory>
    ensures { OnOk result (out.new.items ≡ out.old.items ++ entries_bytes entries.now) }
{
    for entry in entries {
        push_row(out, entry)?;
    }
    Ok(())
}

#[tactic(auto, using(crate::proofs::EntryLemmas::longs_of_entry))]
fn push_row(out: &mut Vec<u8>, entry: &Entry) -> Result<(), NoMemory>
    ensures { OnOk result (out.new.items ≡ out.old.items ++ entry_bytes entry.now) }
{
    push_longs(out, &[entry.tag, entry.value])
}

/// How many bytes so many entries have.
pub(crate) fn dynamic_size(entries: &[Entry]) -> Result<u64, NoMemory>
    ensures { IfOk result (λ size. size ≡ dynamic_size entries.now) }
{
    u64::try_from(16 * entries.len() as u128).map_err(|_| NoMemory)
}
