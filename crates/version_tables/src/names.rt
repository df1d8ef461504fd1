//! Copies of what was read, with names in place of string places.

ghost use Rattle.std.specs.Prelude.{◌≡◌, map, IfOk};
ghost use Rattle.dyn_table.specs.Table.{IsTableOf};
ghost use Rattle.load_model.specs.VersionTables.{name_by, text_of, version_by};
ghost use Rattle.version_tables.specs.Indexes.{version_in};
ghost use Rattle.version_tables.specs.VersionLists.{ask_in, places_in};

use crate::asked::Asked;
use crate::definitions::Definition;
use crate::indexes::place_in;
use crate::tables::text_of;
use byte_view::constants::{VER_NDX_GLOBAL, VER_NDX_LOCAL, VERSYM_VERSION};
use dyn_table::Dyn;
use load_model::{Ask, List, Name, NoMemory, Ver};
use std::alloc::{AllocError, Global};

/// The name at a string place.
fn name_at(alloc: Global, table: &Dyn, bytes: &[u8], place: u32) -> Result<Name, NoMemory>
    requires { IsTableOf table.now bytes.now }
    ensures { IfOk result (λ name. name ≡ text_of bytes.now place) }
{
    Name::from_bytes(alloc, text_of(table, bytes, place))
}

/// The name at a string place, empty where there is none.
fn name_by(alloc: Global, table: &Dyn, bytes: &[u8], place: Option<u32>) -> Result<Name, NoMemory>
    requires { IsTableOf table.now bytes.now }
    ensures { IfOk result (λ name. name ≡ name_by bytes.now place) }
{
    match place {
        Some(place) => name_at(alloc, table, bytes, place),
        None => Name::from_bytes(alloc, &[]),
    }
}

/// The version with an index, and with the name at a string place.
fn version_by(
    alloc: Global,
    table: &Dyn,
    bytes: &[u8],
    index: u16,
    place: Option<u32>,
) -> Result<Ver, NoMemory>
    requires { IsTableOf table.now bytes.now }
    ensures { IfOk result (λ version. version ≡ version_by bytes.now index place) }
{
    match index {
        VER_NDX_LOCAL => Ok(Ver::Local),
        VER_NDX_GLOBAL => Ok(Ver::Global),
        _ => {
            let name = name_by(alloc, table, bytes, place)?;
            Ok(Ver::Named { index, name })
        }
    }
}

/// The version by the word of a symbol.
#[tactic(auto, unfolding(crate::specs::Indexes::version_in))]
fn version_in(
    alloc: Global,
    table: &Dyn,
    bytes: &[u8],
    places: &[Option<u32>],
    word: u16,
) -> Result<Ver, NoMemory>
    requires { IsTableOf table.now bytes.now }
    ensures { IfOk result (λ version. version ≡ version_in bytes.now places.now word) }
{
    let index = word & VERSYM_VERSION;
    version_by(alloc, table, bytes, index, place_in(places, index))
}

/// The version of each symbol.
pub(crate) fn symbol_versions(
    alloc: Global,
    table: &Dyn,
    bytes: &[u8],
    places: &[Option<u32>],
    words: &[u16],
) -> Result<Vec<Ver>, NoMemory>
    requires { IsTableOf table.now bytes.now }
    ensures { IfOk result
        (λ versions. versions.items ≡ map (version_in bytes.now places.now) words.now) }
{
    let mut versions = Vec::new(alloc);
    for word in words {
        let version = version_in(alloc, table, bytes, places, *word)?;
        let Ok(()) = versions.push(version) else {
            return Err(NoMemory);
        };
    }
    Ok(versions)
}

/// The name of each definition.
pub(crate) fn definition_names(
    alloc: Global,
    table: &Dyn,
    bytes: &[u8],
    definitions: &[Definition],
) -> Result<List<Name>, NoMemory>
    requires { IsTableOf table.now bytes.now }
    ensures { IfOk result (λ names. names ≡ map (λ d. text_of bytes.now d.name) definitions.now) }
{
    let mut names = List::new(alloc);
    for definition in definitions {
        names.push(name_at(alloc, table, bytes, definition.name)?)?;
    }
    Ok(names)
}

/// An ask with its names.
fn ask_in(alloc: Global, table: &Dyn, bytes: &[u8], asked: &Asked) -> Result<Ask, NoMemory>
    requires { IsTableOf table.now bytes.now }
    ensures { IfOk result (λ ask. ask ≡ ask_in bytes.now asked.now) }
{
    let file = name_at(alloc, table, bytes, asked.file)?;
    let name = name_at(alloc, table, bytes, asked.name)?;
    let weak = asked.weak;
    Ok(Ask { file, name, weak })
}

/// All asks with their names.
pub(crate) fn named_asks(
    alloc: Global,
    table: &Dyn,
    bytes: &[u8],
    asks: &[Asked],
) -> Result<List<Ask>, NoMemory>
    requires { IsTableOf table.now bytes.now }
    ensures { IfOk result (λ named. named ≡ map (ask_in bytes.now) asks.now) }
{
    let mut named = List::new(alloc);
    for asked in asks {
        named.push(ask_in(alloc, table, bytes, asked)?)?;
    }
    Ok(named)
}

/// The number of the need of each ask.
pub(crate) fn need_numbers(alloc: Global, asks: &[Asked]) -> Result<Vec<u32>, AllocError>
    ensures { IfOk result (λ numbers. numbers.items ≡ map (λ a. a.need) asks.now) }
{
    asks.iter().map(|asked| asked.need).collect(alloc)
}

/// Where each ask stands in the file.
pub(crate) fn ask_places(alloc: Global, asks: &[Asked]) -> Result<Vec<u64>, AllocError>
    ensures { IfOk result (λ places. places.items ≡ map (λ a. a.place) asks.now) }
{
    asks.iter().map(|asked| asked.place).collect(alloc)
}

/// Where each definition and its first name stand in the file.
pub(crate) fn definition_places(
    alloc: Global,
    definitions: &[Definition],
) -> Result<Vec<(u64, u64)>, AllocError>
    ensures { IfOk result (λ places. places.items ≡ map places_in definitions.now) }
{
    definitions
        .iter()
        .map(|definition| (definition.place, definition.aux_place))
        .collect(alloc)
}
