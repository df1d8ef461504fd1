//! The string table.
//!
//! System V gABI, String Table.

ghost use Rattle.std.specs.Prelude.{◌≡◌, ◌+◌, ◌++◌, flat_map, fold, length, map, option_to_list, vec_items, OnOk, IfOk};
ghost use Rattle.elf_shape.specs.Texts.{with_string, ended, shape_texts, string_table, places_from, string_place, with_own_texts, with_symbol_names, with_version_texts};

use crate::numbers::push_bytes;
use crate::shape::{Export, Import, Shape};
use crate::texts::Texts;
use crate::versions::{Versions, files_of};
use load_model::{Ask, Name, NoMemory, Text};
use std::alloc::Global;
use std::marker::Model;

/// The texts of a string table, and where each of them stands.
#[derive(Drop)]
pub struct Strings {
    texts: Texts,
    places: Vec<u32>,
}

impl Model for Strings {
    ghost use Rattle.std.specs.Prelude.{List, ℕ, ◌≡◌};
    ghost use Rattle.elf_shape.specs.Texts.{places_from};

    ghost Value = { List (List ℕ) };

    ghost view = { λ strings. strings.texts };

    ghost invariant = { λ strings. strings.places.items ≡ places_from 1 strings.texts };
}

/// The place behind a text that stands at a place, and behind its zero.
fn behind(at: u32, text: &[u8]) -> Result<u32, NoMemory>
    ensures { IfOk result (λ end. end ≡ at + length text.now + 1) }
{
    u32::try_from(at as u128 + text.len() as u128 + 1).map_err(|_| NoMemory)
}

/// Appends where each of the texts stands, the first of them at `first`.
fn push_places(out: &mut Vec<u32>, first: u32, texts: &[Vec<u8>]) -> Result<(), NoMemory>
    ensures { OnOk result
        (out.new.items ≡ out.old.items ++ places_from first (map vec_items texts.now)) }
{
    let mut at = first;
    for text in texts {
        match out.push(at) {
            Ok(()) => at = behind(at, text.as_slice())?,
            Err(_) => return Err(NoMemory),
        }
    }
    Ok(())
}

/// Where each of the texts stands. A table of 2^32 bytes and more is not made.
fn places_of(alloc: Global, texts: &[Vec<u8>]) -> Result<Vec<u32>, NoMemory>
    ensures { IfOk result (λ places. places.items ≡ places_from 1 (map vec_items texts.now)) }
{
    let mut places = Vec::new(alloc);
    push_places(&mut places, 1, texts)?;
    Ok(places)
}

/// Appends a text and a zero.
fn push_ended(out: &mut Vec<u8>, text: &[u8]) -> Result<(), NoMemory>
    ensures { OnOk result (out.new.items ≡ out.old.items ++ ended text.now) }
{
    push_bytes(out, text)?;
    push_bytes(out, &[0])
}

/// Appends the texts, each with a zero.
fn push_texts(out: &mut Vec<u8>, texts: &[Vec<u8>]) -> Result<(), NoMemory>
    ensures { OnOk result
        (out.new.items ≡ out.old.items ++ flat_map ended (map vec_items texts.now)) }
{
    for text in texts {
        push_ended(out, text.as_slice())?;
    }
    Ok(())
}

/// The bytes of a string table with these texts.
#[tactic(auto, unfolding(crate::specs::Texts::string_table))]
fn table_of(alloc: Global, texts: &[Vec<u8>]) -> Result<Text, NoMemory>
    ensures { IfOk result (λ table. table ≡ string_table (map vec_items texts.now)) }
{
    let mut table = Vec::new(alloc);
    push_bytes(&mut table, &[0])?;
    push_texts(&mut table, texts)?;
    Ok(Text::from_vec(table))
}

impl Strings {
    /// The string table of these texts.
    fn new(alloc: Global, texts: Texts) -> Result<Strings, NoMemory>
        ensures { IfOk result (λ strings. strings ≡ texts) }
    {
        let places = places_of(alloc, texts.as_slice())?;
        Ok(Strings { texts, places })
    }

    /// Where a text stands. One that is not there is the empty one, and stands at the first byte.
    #[tactic(auto, unfolding(crate::specs::Texts::string_place))]
    pub fn place(&self, text: &[u8]) -> u32
        ensures { result ≡ string_place self.now text.now }
    {
        match self.texts.position(text) {
            Some(i) => self.places.as_slice().get(i).copied().unwrap_or(0),
            None => 0,
        }
    }

    /// The bytes of the table.
    pub fn table(&self, alloc: Global) -> Result<Text, NoMemory>
        ensures { IfOk result (λ table. table ≡ string_table self.now) }
    {
        table_of(alloc, self.texts.as_slice())
    }
}

/// Adds a text, unless it is empty or there.
fn add_string(alloc: Global, texts: &mut Texts, text: &[u8]) -> Result<(), NoMemory>
    ensures { OnOk result (texts.new ≡ with_string texts.old text.now) }
{
    if text.is_empty() {
        return Ok(());
    }
    texts.add(alloc, text)
}

/// Adds the text, where there is one.
fn add_optional(alloc: Global, texts: &mut Texts, text: &Option<Name>) -> Result<(), NoMemory>
    ensures { OnOk result (texts.new ≡ fold with_string texts.old (option_to_list text.now)) }
{
    match text {
        Some(text) => add_string(alloc, texts, text.as_bytes()),
        None => Ok(()),
    }
}

/// Adds the texts.
fn add_strings(alloc: Global, texts: &mut Texts, more: &[Name]) -> Result<(), NoMemory>
    ensures { OnOk result (texts.new ≡ fold with_string texts.old more.now) }
{
    for text in more {
        add_string(alloc, texts, text.as_bytes())?;
    }
    Ok(())
}

/// Adds the names of the imports.
fn add_import_names(alloc: Global, texts: &mut Texts, imports: &[Import]) -> Result<(), NoMemory>
    ensures { OnOk result (texts.new ≡ fold with_string texts.old (map (λ i. i.name) imports.now)) }
{
    for import in imports {
        add_string(alloc, texts, import.name.as_bytes())?;
    }
    Ok(())
}

/// Adds the names of the exports.
fn add_export_names(alloc: Global, texts: &mut Texts, exports: &[Export]) -> Result<(), NoMemory>
    ensures { OnOk result (texts.new ≡ fold with_string texts.old (map (λ e. e.name) exports.now)) }
{
    for export in exports {
        add_string(alloc, texts, export.name.as_bytes())?;
    }
    Ok(())
}

/// Adds the names of the versions that are asked.
fn add_version_names(alloc: Global, texts: &mut Texts, asks: &[Ask]) -> Result<(), NoMemory>
    ensures { OnOk result (texts.new ≡ fold with_string texts.old (map (λ a. a.name) asks.now)) }
{
    for ask in asks {
        add_string(alloc, texts, ask.name.as_bytes())?;
    }
    Ok(())
}

/// Adds what the file is called, what it needs, and how it is searched.
fn add_own_texts(alloc: Global, texts: &mut Texts, shape: &Shape) -> Result<(), NoMemory>
    ensures { OnOk result (texts.new ≡ with_own_texts texts.old shape.now) }
{
    add_optional(alloc, texts, &shape.soname)?;
    add_strings(alloc, texts, shape.needs.as_slice())?;
    add_optional(alloc, texts, &shape.rpath)?;
    add_optional(alloc, texts, &shape.runpath)
}

/// Adds the names of its symbols.
fn add_symbol_names(alloc: Global, texts: &mut Texts, shape: &Shape) -> Result<(), NoMemory>
    ensures { OnOk result (texts.new ≡ with_symbol_names texts.old shape.now) }
{
    add_import_names(alloc, texts, shape.imports.as_slice())?;
    add_export_names(alloc, texts, shape.exports.as_slice())
}

/// Adds the texts of its versions.
fn add_version_texts(alloc: Global, texts: &mut Texts, versions: &Versions) -> Result<(), NoMemory>
    ensures { OnOk result (texts.new ≡ with_version_texts texts.old versions.now) }
{
    let files = files_of(alloc, versions.needed.as_slice())?;
    add_strings(alloc, texts, files.as_slice())?;
    add_strings(alloc, texts, versions.definitions.as_slice())?;
    add_version_names(alloc, texts, versions.needed.as_slice())
}

/// The texts of the string table, in order.
#[tactic(auto, using(crate::proofs::ShapeTexts::texts_by_turns))]
fn shape_texts(alloc: Global, shape: &Shape, versions: &Versions) -> Result<Texts, NoMemory>
    ensures { IfOk result (λ texts. texts ≡ shape_texts shape.now versions.now) }
{
    let mut texts = Texts::new(alloc);
    add_own_texts(alloc, &mut texts, shape)?;
    add_symbol_names(alloc, &mut texts, shape)?;
    add_version_texts(alloc, &mut texts, versions)?;
    Ok(texts)
}

/// The strings of a file.
pub fn strings_of(alloc: Global, shape: &Shape, versions: &Versions) -> Result<Strings, NoMemory>
    ensures { IfOk result (λ strings. strings ≡ shape_texts shape.now versions.now) }
{
    let texts = shape_texts(alloc, shape, versions)?;
    Strings::new(alloc, texts)
}
