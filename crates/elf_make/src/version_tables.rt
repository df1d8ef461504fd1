//! The version definitions and the needed versions.
//!
//! Linux Standard Base, Symbol Versioning.

ghost use Rattle.std.specs.Prelude.{◌≡◌, ◌+◌, ◌*◌, ◌++◌, OnOk, IfOk};
ghost use Rattle.elf_make.specs.VersionTables.{definition_record, definitions_from, verdef_of, ask_record, asks_from, need_record, need_records, need_records_from, verneed_of};

use byte_view::constants::{VER_CURRENT, VER_FLG_BASE, VER_FLG_WEAK};
use elf_shape::numbers::{push_halves, push_words};
use elf_shape::strings::Strings;
use elf_shape::symbols::count_of;
use elf_shape::versions::{Versions, asks_of, files_of, index_at};
use load_model::{Ask, Name, NoMemory, Text};
use std::alloc::Global;

/// The size of a Verdef and its one Verdaux.
const DEFINITION_SIZE: u32 = 28;
/// The place of the Verdaux behind its Verdef.
const VERDAUX_PLACE: u32 = 20;
/// The size of a Verneed, and of a Vernaux.
const NEED_SIZE: u32 = 16;

/// Appends a Verdef and its one Verdaux.
#[tactic(auto, unfolding(crate::specs::VersionTables::definition_record))]
fn push_definition(out: &mut Vec<u8>, index: u16, name: u32, next: u32) -> Result<(), NoMemory>
    ensures { OnOk result (out.new.items ≡ out.old.items ++ definition_record index name next) }
{
    let flags = if index == 1 { VER_FLG_BASE } else { 0 };
    push_halves(out, &[VER_CURRENT, flags, index, 1])?;
    push_words(out, &[0, VERDAUX_PLACE, next, name, 0])
}

/// Appends the definitions with these names, of which the first has the index `first`.
fn push_definitions(
    out: &mut Vec<u8>,
    texts: &Strings,
    first: u16,
    names: &[Name],
) -> Result<(), NoMemory>
    ensures { OnOk result
        (out.new.items ≡ out.old.items ++ definitions_from texts.now first names.now) }
{
    let mut index = first;
    let mut rest = names;
    'names: while let Some((name, more)) = rest.split_first() {
        let next = if more.is_empty() { 0 } else { DEFINITION_SIZE };
        push_definition(out, index, texts.place(name.as_bytes()), next)?;
        index = index_at(index, 1)?;
        rest = more;
    }
    Ok(())
}

/// The version definitions, where there are any: that of the file itself and those of its exports.
#[tactic(auto, unfolding(crate::specs::VersionTables::verdef_of))]
pub(crate) fn verdef_of(
    alloc: Global,
    texts: &Strings,
    soname: &Option<Name>,
    definitions: &[Name],
) -> Result<Text, NoMemory>
    ensures { IfOk result (λ table. table ≡ verdef_of texts.now soname.now definitions.now) }
{
    let mut table = Vec::new(alloc);
    if !definitions.is_empty() {
        let base = match soname {
            Some(name) => texts.place(name.as_bytes()),
            None => texts.place(&[]),
        };
        push_definition(&mut table, 1, base, DEFINITION_SIZE)?;
        push_definitions(&mut table, texts, 2, definitions)?;
    }
    Ok(Text::from_vec(table))
}

/// Appends a Vernaux.
#[tactic(auto, unfolding(crate::specs::VersionTables::ask_record))]
fn push_ask(out: &mut Vec<u8>, weak: bool, index: u16, name: u32, next: u32) -> Result<(), NoMemory>
    ensures { OnOk result (out.new.items ≡ out.old.items ++ ask_record weak index name next) }
{
    let flags = if weak { VER_FLG_WEAK } else { 0 };
    push_words(out, &[0])?;
    push_halves(out, &[flags, index])?;
    push_words(out, &[name, next])
}

/// Appends the asks of one file, of which the first has the index `first`.
fn push_asks(out: &mut Vec<u8>, texts: &Strings, first: u16, asks: &[Ask]) -> Result<(), NoMemory>
    ensures { OnOk result (out.new.items ≡ out.old.items ++ asks_from texts.now first asks.now) }
{
    let mut index = first;
    let mut rest = asks;
    'asks: while let Some((ask, more)) = rest.split_first() {
        let next = if more.is_empty() { 0 } else { NEED_SIZE };
        push_ask(out, ask.weak, index, texts.place(ask.name.as_bytes()), next)?;
        index = index_at(index, 1)?;
        rest = more;
    }
    Ok(())
}

/// Appends a Verneed.
#[tactic(auto, unfolding(crate::specs::VersionTables::need_record))]
fn push_need(out: &mut Vec<u8>, count: u16, file: u32, next: u32) -> Result<(), NoMemory>
    ensures { OnOk result (out.new.items ≡ out.old.items ++ need_record count file next) }
{
    push_halves(out, &[VER_CURRENT, count])?;
    push_words(out, &[file, NEED_SIZE, next])
}

/// Appends the record of a file and its asks.
#[tactic(auto, unfolding(crate::specs::VersionTables::need_records))]
fn push_need_records(
    out: &mut Vec<u8>,
    texts: &Strings,
    first: u16,
    file: &[u8],
    asks: &[Ask],
    next: u32,
) -> Result<(), NoMemory>
    ensures { OnOk result
        (out.new.items ≡ out.old.items ++ need_records texts.now first file.now asks.now next) }
{
    push_need(out, index_at(0, asks.len())?, texts.place(file), next)?;
    push_asks(out, texts, first, asks)
}

/// The size of a Verneed and so many Vernaux.
fn need_size(count: usize) -> Result<u32, NoMemory>
    ensures { IfOk result (λ size. size ≡ 16 + 16 * count) }
{
    u32::try_from(16 + 16 * count as u128).map_err(|_| NoMemory)
}

/// Appends the records of these files.
fn push_needs(
    alloc: Global,
    out: &mut Vec<u8>,
    texts: &Strings,
    needed: &[Ask],
    first: u16,
    files: &[Name],
) -> Result<(), NoMemory>
    ensures { OnOk result
        (out.new.items ≡ out.old.items ++ need_records_from texts.now needed.now first files.now) }
{
    let mut index = first;
    let mut rest = files;
    'files: while let Some((file, more)) = rest.split_first() {
        let asks = asks_of(alloc, file.as_bytes(), needed)?;
        let next = if more.is_empty() {
            0
        } else {
            need_size(asks.as_slice().len())?
        };
        push_need_records(out, texts, index, file.as_bytes(), asks.as_slice(), next)?;
        index = index_at(index, asks.as_slice().len())?;
        rest = more;
    }
    Ok(())
}

/// The needed versions, file by file.
#[tactic(auto, unfolding(crate::specs::VersionTables::verneed_of))]
pub(crate) fn verneed_of(
    alloc: Global,
    texts: &Strings,
    versions: &Versions,
) -> Result<Text, NoMemory>
    ensures { IfOk result (λ table. table ≡ verneed_of texts.now versions.now) }
{
    let files = files_of(alloc, versions.needed.as_slice())?;
    let first = versions.first_needed_index()?;
    let mut table = Vec::new(alloc);
    push_needs(
        alloc,
        &mut table,
        texts,
        versions.needed.as_slice(),
        first,
        files.as_slice(),
    )?;
    Ok(Text::from_vec(table))
}
