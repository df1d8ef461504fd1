//! Which texts of a file a change changes, and what it removes.
//!
//! System V gABI, Dynamic Section; Linux Standard Base, Symbol Versioning. The definitions are in
//! `specs/NewTexts.antt`.

ghost use Rattle.std.specs.Prelude.{◌≡◌, [], ◌∷◌, ◌++◌, IfOk, OnOk, length, map};
ghost use Rattle.std.specs.Option.{option_copied};
ghost use Rattle.byte_view.specs.Dynamic.{dynamic_entries};
ghost use Rattle.dyn_table.specs.Table.{IsTableOf};
ghost use Rattle.elf_rewrite.specs.NewFile.{Fits};
ghost use Rattle.elf_rewrite.specs.NewTable.{need_values};
ghost use Rattle.elf_rewrite.specs.NewTexts.{ask_files, changed, changed_name, changed_texts, is_dropped, removes};
ghost use Rattle.load_model.specs.Faces.{named_text};
ghost use Rattle.load_model.specs.SymbolFlaws.{symbol_count};
ghost use Rattle.load_model.specs.VersionTables.{text_of};
ghost use Rattle.version_tables.specs.VersionLists.{IsVersionsOf};

use crate::change::Change;
use byte_view::constants::{DT_RPATH, DT_RUNPATH, DT_SONAME};
use dyn_table::{Dyn, has_tag, value_of};
use load_model::{Ask, List, Name, NoMemory};
use std::alloc::Global;
use version_tables::Versions;

/// The new texts that differ from the old ones at their places: needs, the soname, the run path,
/// files of versions. `needs` are the string places of the old needs.
#[tactic(auto, using(crate::proofs::TextSteps::needs_counted, crate::proofs::TextSteps::files_counted))]
pub(crate) fn changed_texts(
    alloc: Global,
    table: &Dyn,
    versions: &Versions,
    bytes: &[u8],
    needs: &[u64],
    change: &Change,
) -> Result<List<Name>, NoMemory>
    requires change { Fits change.now bytes.now }
    requires needs { needs.now ≡ need_values (dynamic_entries bytes.now) }
    requires table { IsTableOf table.now bytes.now }
    requires versions { IsVersionsOf versions.now (symbol_count bytes.now) bytes.now }
    ensures { IfOk result (λ texts. texts ≡ changed_texts bytes.now change.now) }
{
    let soname = named_text(table, bytes, DT_SONAME);
    let runpath = named_text(table, bytes, DT_RUNPATH);
    let mut texts = List::new(alloc);
    push_needs(
        alloc,
        &mut texts,
        table,
        bytes,
        needs,
        change.needs.as_slice(),
    )?;
    push_name(alloc, &mut texts, soname, &change.soname)?;
    push_name(alloc, &mut texts, runpath, &change.runpath)?;
    push_files(alloc, &mut texts, versions.asks(), change.files.as_slice())?;
    Ok(texts)
}

/// Whether an entry is removed.
#[tactic(auto, unfolding(crate::specs::NewTexts::removes, load_model::specs::Faces::named_text))]
pub(crate) fn removes(table: &Dyn, bytes: &[u8], change: &Change) -> bool
    requires { IsTableOf table.now bytes.now }
    ensures { result ≡ removes bytes.now change.now }
{
    has_tag(DT_RPATH, table.entries())
        || is_dropped(named_text(table, bytes, DT_SONAME), &change.soname)
        || is_dropped(named_text(table, bytes, DT_RUNPATH), &change.runpath)
}

/// The text at a string place, empty where the string table ends before it.
pub(crate) fn text_of<'a>(table: &Dyn, bytes: &'a [u8], at: u64) -> &'a [u8]
    requires { IsTableOf table.now bytes.now }
    ensures { result.now ≡ text_of bytes.now at }
{
    match table.text(bytes, at) {
        Some(text) => text,
        None => &[],
    }
}

/// The text that the first entry with this tag names.
#[tactic(auto, unfolding(load_model::specs::Faces::named_text))]
fn named_text<'a>(table: &Dyn, bytes: &'a [u8], tag: u64) -> Option<&'a [u8]>
    requires { IsTableOf table.now bytes.now }
    ensures { option_copied result ≡ named_text bytes.now tag }
{
    match value_of(tag, table.entries()) {
        Some(at) => Some(text_of(table, bytes, at)),
        None => None,
    }
}

fn is_dropped(old: Option<&[u8]>, new: &Option<Name>) -> bool
    ensures { result ≡ is_dropped (option_copied old.entry) new.now }
{
    old.is_some() && new.is_none()
}

/// Adds the texts that differ from those at these string places.
fn push_needs(
    alloc: Global,
    texts: &mut List<Name>,
    table: &Dyn,
    bytes: &[u8],
    places: &[u64],
    news: &[Name],
) -> Result<(), NoMemory>
    requires table { IsTableOf table.now bytes.now }
    requires same { length places.now ≡ length news.now }
    ensures { OnOk result (texts.new ≡ texts.old ++ changed (map (text_of bytes.now) places.now)
        news.now) }
{
    for i in 0..news.len() {
        push_changed(alloc, texts, text_of(table, bytes, places[i]), &news[i])?;
    }
    Ok(())
}

/// Adds the files of versions that change.
fn push_files(
    alloc: Global,
    texts: &mut List<Name>,
    asks: &[Ask],
    files: &[Name],
) -> Result<(), NoMemory>
    requires { length asks.now ≡ length files.now }
    ensures { OnOk result (texts.new ≡ texts.old
        ++ changed (map (λ a. a.file) asks.now) files.now) }
{
    for i in 0..files.len() {
        push_changed(alloc, texts, asks[i].file.as_bytes(), &files[i])?;
    }
    Ok(())
}

/// Adds a text that may be missing, if it changes.
fn push_name(
    alloc: Global,
    texts: &mut List<Name>,
    old: Option<&[u8]>,
    new: &Option<Name>,
) -> Result<(), NoMemory>
    ensures { OnOk result (texts.new ≡ texts.old
        ++ changed_name (option_copied old.entry) new.now) }
{
    match (old, new) {
        (_, None) => Ok(()),
        (None, Some(new)) => texts.push(Name::from_bytes(alloc, new.as_bytes())?),
        (Some(old), Some(new)) => push_changed(alloc, texts, old, new),
    }
}

/// Adds a text, if it is not the old one.
fn push_changed(
    alloc: Global,
    texts: &mut List<Name>,
    old: &[u8],
    new: &Name,
) -> Result<(), NoMemory>
    ensures { OnOk result (texts.new ≡ texts.old ++ changed (old.now ∷ []) (new.now ∷ [])) }
{
    if old == new.as_bytes() {
        return Ok(());
    }
    texts.push(Name::from_bytes(alloc, new.as_bytes())?)
}
