//! Symbol versions: what a file defines and needs, and the index of each.
//!
//! Linux Standard Base, Symbol Versioning. Look-ups go through lists, which is quadratic in the
//! number of versions, and linear in that of symbols: made files have few versions.

ghost use Rattle.std.specs.Prelude.{[], ◌∷◌, bytes_eq, ◌≡◌, ◌+◌, ◌++◌, fold, filter_map, flat_map, map, OnOk, IfOk};
ghost use Rattle.std.specs.Bool.{OnTrue};
ghost use Rattle.std.specs.List.{list_any, position_from};
ghost use Rattle.elf_shape.specs.Distinct.{each_once, with_text};
ghost use Rattle.elf_shape.specs.Versions.{HasFewVersions, ask_of_import, uses_of, is_version, with_ask, first_uses, files_of, asks_of_file, file_by_file, made_versions, has_version_indexes, place_of, index_of_definition, first_needed_index, index_by, import_index, export_index};

use crate::distinct::add_text;
use crate::shape::{Export, Import, Shape};
use byte_view::constants::{VER_NDX_GLOBAL, VERSYM_HIDDEN};
use load_model::{Ask, List, Name, NoMemory};
use std::alloc::Global;

/// The versions of a file, each once.
#[derive(Drop)]
pub struct Versions {
    /// Those that its exports define, in order.
    pub definitions: List<Name>,
    /// Those that it needs, file by file.
    pub needed: List<Ask>,
}

/// Is there an ask of this version of this file?
fn is_asked(asks: &[Ask], file: &[u8], name: &[u8]) -> bool
    ensures { result ≡ list_any (is_version file.now name.now) asks.now }
{
    asks.iter().any(|a| is_version(a, file, name))
}

fn is_version(ask: &Ask, file: &[u8], name: &[u8]) -> bool
    ensures { result ≡ is_version file.now name.now ask.now }
{
    ask.file.as_bytes() == file && ask.name.as_bytes() == name
}

/// Adds an ask, unless its version of its file is there.
fn add_ask(asks: &mut List<Ask>, ask: Ask) -> Result<(), NoMemory>
    ensures { OnOk result (asks.new ≡ with_ask asks.old ask) }
{
    if is_asked(asks.as_slice(), ask.file.as_bytes(), ask.name.as_bytes()) {
        return Ok(());
    }
    asks.push(ask)
}

/// What an import asks, where it names both a file and a version.
fn ask_of_import(alloc: Global, import: &Import) -> Result<Option<Ask>, NoMemory>
    ensures { IfOk result (λ ask. ask ≡ ask_of_import import.now) }
{
    match (&import.file, &import.version) {
        (Some(file), Some(name)) => Ok(Some(Ask {
            file: Name::from_bytes(alloc, file.as_bytes())?,
            name: Name::from_bytes(alloc, name.as_bytes())?,
            weak: false,
        })),
        _ => Ok(None),
    }
}

/// Adds what the imports ask.
fn add_imports(alloc: Global, asks: &mut List<Ask>, imports: &[Import]) -> Result<(), NoMemory>
    ensures { OnOk result
        (asks.new ≡ fold with_ask asks.old (filter_map ask_of_import imports.now)) }
{
    for import in imports {
        if let Some(ask) = ask_of_import(alloc, import)? {
            add_ask(asks, ask)?;
        }
    }
    Ok(())
}

/// Adds a copy of an ask.
fn add_copy(alloc: Global, asks: &mut List<Ask>, ask: &Ask) -> Result<(), NoMemory>
    ensures { OnOk result (asks.new ≡ with_ask asks.old ask.now) }
{
    let copy = ask.copy(alloc)?;
    add_ask(asks, copy)
}

/// Adds the asks.
fn add_asks(alloc: Global, asks: &mut List<Ask>, more: &[Ask]) -> Result<(), NoMemory>
    ensures { OnOk result (asks.new ≡ fold with_ask asks.old more.now) }
{
    for ask in more {
        add_copy(alloc, asks, ask)?;
    }
    Ok(())
}

/// The first use of each version of another file.
#[tactic(auto, unfolding(crate::specs::Versions::first_uses, crate::specs::Versions::uses_of))]
fn first_uses(alloc: Global, shape: &Shape) -> Result<List<Ask>, NoMemory>
    ensures { IfOk result (λ asks. asks ≡ first_uses (uses_of shape.now)) }
{
    let mut asks = List::new(alloc);
    add_imports(alloc, &mut asks, shape.imports.as_slice())?;
    add_asks(alloc, &mut asks, shape.asks.as_slice())?;
    Ok(asks)
}

/// Adds the files of the asks.
fn add_files(alloc: Global, files: &mut List<Name>, asks: &[Ask]) -> Result<(), NoMemory>
    ensures { OnOk result (files.new ≡ fold with_text files.old (map (λ a. a.file) asks.now)) }
{
    for ask in asks {
        add_text(alloc, files, ask.file.as_bytes())?;
    }
    Ok(())
}

/// The files of the asks, each once.
#[tactic(auto, unfolding(crate::specs::Versions::files_of, crate::specs::Distinct::each_once))]
pub fn files_of(alloc: Global, asks: &[Ask]) -> Result<List<Name>, NoMemory>
    ensures { IfOk result (λ files. files ≡ files_of asks.now) }
{
    let mut files = List::new(alloc);
    add_files(alloc, &mut files, asks)?;
    Ok(files)
}

/// Appends a copy of an ask.
fn push_copy(alloc: Global, out: &mut List<Ask>, ask: &Ask) -> Result<(), NoMemory>
    ensures { OnOk result (out.new ≡ out.old ++ ask.now ∷ []) }
{
    let copy = ask.copy(alloc)?;
    out.push(copy)
}

/// Appends the asks of a file.
#[tactic(auto, unfolding(crate::specs::Versions::asks_of_file))]
fn push_asks_of(
    alloc: Global,
    out: &mut List<Ask>,
    file: &[u8],
    asks: &[Ask],
) -> Result<(), NoMemory>
    ensures { OnOk result (out.new ≡ out.old ++ asks_of_file file.now asks.now) }
{
    for ask in asks {
        if ask.file.as_bytes() == file {
            push_copy(alloc, out, ask)?;
        }
    }
    Ok(())
}

/// The asks of a file.
pub fn asks_of(alloc: Global, file: &[u8], asks: &[Ask]) -> Result<List<Ask>, NoMemory>
    ensures { IfOk result (λ found. found ≡ asks_of_file file.now asks.now) }
{
    let mut found = List::new(alloc);
    push_asks_of(alloc, &mut found, file, asks)?;
    Ok(found)
}

/// Appends the asks of each of these files.
fn push_by_file(
    alloc: Global,
    out: &mut List<Ask>,
    files: &[Name],
    asks: &[Ask],
) -> Result<(), NoMemory>
    ensures { OnOk result
        (out.new ≡ out.old ++ flat_map (λ file. asks_of_file file asks.now) files.now) }
{
    for file in files {
        push_asks_of(alloc, out, file.as_bytes(), asks)?;
    }
    Ok(())
}

/// The asks, file by file.
#[tactic(auto, unfolding(crate::specs::Versions::file_by_file))]
fn by_file(alloc: Global, asks: &[Ask]) -> Result<List<Ask>, NoMemory>
    ensures { IfOk result (λ sorted. sorted ≡ file_by_file asks.now) }
{
    let files = files_of(alloc, asks)?;
    let mut sorted = List::new(alloc);
    push_by_file(alloc, &mut sorted, files.as_slice(), asks)?;
    Ok(sorted)
}

/// Adds the versions that the exports define.
fn add_versions(alloc: Global, names: &mut List<Name>, exports: &[Export]) -> Result<(), NoMemory>
    ensures { OnOk result
        (names.new ≡ fold with_text names.old (filter_map (λ e. e.version) exports.now)) }
{
    for export in exports {
        if let Some(version) = &export.version {
            add_text(alloc, names, version.as_bytes())?;
        }
    }
    Ok(())
}

/// The versions that the exports define, each once.
#[tactic(auto, unfolding(crate::specs::Distinct::each_once))]
fn definitions_of(alloc: Global, exports: &[Export]) -> Result<List<Name>, NoMemory>
    ensures { IfOk result (λ names. names ≡ each_once (filter_map (λ e. e.version) exports.now)) }
{
    let mut names = List::new(alloc);
    add_versions(alloc, &mut names, exports)?;
    Ok(names)
}

/// The versions of the file, however many they are.
#[tactic(auto, unfolding(crate::specs::Versions::made_versions))]
fn all_versions_of(alloc: Global, shape: &Shape) -> Result<Versions, NoMemory>
    ensures { IfOk result (λ versions. versions ≡ made_versions shape.now) }
{
    let uses = first_uses(alloc, shape)?;
    Ok(Versions {
        definitions: definitions_of(alloc, shape.exports.as_slice())?,
        needed: by_file(alloc, uses.as_slice())?,
    })
}

/// Are there indexes for all versions, from 2 on? An index has fifteen bits of its word.
fn has_few_versions(versions: &Versions) -> bool
    ensures { OnTrue result (HasFewVersions versions.now) }
{
    let definitions = versions.definitions.as_slice().len();
    let needed = versions.needed.as_slice().len();
    2 + definitions as u128 + needed as u128 <= VERSYM_HIDDEN as u128
}

/// The versions of the file. More than there are indexes are not made.
pub fn versions_of(alloc: Global, shape: &Shape) -> Result<Versions, NoMemory>
    ensures versions { IfOk result (λ versions. versions ≡ made_versions shape.now) }
    ensures few { IfOk result (λ versions. HasFewVersions versions) }
{
    let versions = all_versions_of(alloc, shape)?;
    if !has_few_versions(&versions) {
        return Err(NoMemory);
    }
    Ok(versions)
}

impl Versions {
    /// Does the file have version indexes?
    pub fn is_versioned(&self) -> bool
        ensures { result ≡ has_version_indexes self.now }
    {
        !(self.definitions.as_slice().is_empty() && self.needed.as_slice().is_empty())
    }

    /// The index of the first version that is needed.
    pub fn first_needed_index(&self) -> Result<u16, NoMemory>
        ensures { IfOk result (λ index. index ≡ first_needed_index self.now) }
    {
        index_at(2, self.definitions.as_slice().len())
    }

    /// The version index of an import.
    #[tactic(auto, unfolding(crate::specs::Versions::import_index))]
    pub fn import_index(&self, import: &Import) -> Result<u16, NoMemory>
        ensures { IfOk result (λ index. index ≡ import_index self.now import.now) }
    {
        match (&import.file, &import.version) {
            (Some(file), Some(name)) => {
                let place = place_of_ask(self.needed.as_slice(), file.as_bytes(), name.as_bytes());
                index_at(self.first_needed_index()?, place)
            }
            _ => Ok(VER_NDX_GLOBAL),
        }
    }

    /// The index of an export's version, or that of none.
    fn index_by(&self, version: &Option<Name>) -> Result<u16, NoMemory>
        ensures { IfOk result (λ index. index ≡ index_by self.now version.now) }
    {
        match version {
            Some(name) => index_of_definition(self.definitions.as_slice(), name.as_bytes()),
            None => Ok(VER_NDX_GLOBAL),
        }
    }

    /// The version index of an export, with the bit of a hidden one.
    #[tactic(auto, unfolding(crate::specs::Versions::export_index))]
    pub fn export_index(&self, export: &Export) -> Result<u16, NoMemory>
        ensures { IfOk result (λ index. index ≡ export_index self.now export.now) }
    {
        let index = self.index_by(&export.version)?;
        let mark = if export.hidden { VERSYM_HIDDEN } else { 0 };
        index_at(index, mark as usize)
    }
}

/// The index of a version of the file's own.
fn index_of_definition(definitions: &[Name], name: &[u8]) -> Result<u16, NoMemory>
    ensures { IfOk result (λ index. index ≡ index_of_definition definitions.now name.now) }
{
    index_at(2, place_of_text(definitions, name))
}

/// The index that is so many above another.
pub fn index_at(first: u16, place: usize) -> Result<u16, NoMemory>
    ensures { IfOk result (λ index. index ≡ first + place) }
{
    u16::try_from(first as u128 + place as u128).map_err(|_| NoMemory)
}

/// The place of a text, from 0.
fn text_position(texts: &[Name], text: &[u8]) -> Option<usize>
    ensures { result ≡ position_from (λ t. bytes_eq t text.now) 0 texts.now }
{
    texts.iter().position(|t| t.as_bytes() == text)
}

/// The place of the ask of a version of a file, from 0.
fn ask_position(asks: &[Ask], file: &[u8], name: &[u8]) -> Option<usize>
    ensures { result ≡ position_from (is_version file.now name.now) 0 asks.now }
{
    asks.iter().position(|a| is_version(a, file, name))
}

/// The place of a text that is among the texts.
fn place_of_text(texts: &[Name], text: &[u8]) -> usize
    ensures { result ≡ place_of (λ t. bytes_eq t text.now) texts.now }
{
    text_position(texts, text).unwrap_or(0)
}

/// The place of an ask that is among the asks.
fn place_of_ask(asks: &[Ask], file: &[u8], name: &[u8]) -> usize
    ensures { result ≡ place_of (is_version file.now name.now) asks.now }
{
    ask_position(asks, file, name).unwrap_or(0)
}
