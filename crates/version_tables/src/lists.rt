//! The lists that are made of what was kept, with names in place of string places.

ghost use Rattle.std.specs.Prelude.{◌≡◌, map, IfOk};
ghost use Rattle.byte_view.specs.DynamicFlaws.{has_bit};
ghost use Rattle.byte_view.specs.declared.constants.TheConstants.{VERSYM_HIDDEN};
ghost use Rattle.dyn_table.specs.Table.{IsTableOf};
ghost use Rattle.load_model.specs.VersionTables.{text_of};
ghost use Rattle.version_tables.specs.Indexes.{version_in};
ghost use Rattle.version_tables.specs.VersionLists.{ask_in, places_in};

use crate::asked::Asked;
use crate::definitions::Definition;
use crate::names::{
    ask_places, definition_names, definition_places, named_asks, need_numbers, symbol_versions,
};
use crate::symbols::hidden_marks;
use dyn_table::Dyn;
use load_model::{Ask, List, Name, NoMemory, Ver};
use std::alloc::Global;

/// What is known of each symbol: its version, and whether it is hidden.
#[derive(Drop)]
pub(crate) struct SymbolLists {
    pub(crate) versions: Vec<Ver>,
    pub(crate) hidden: Vec<bool>,
}

/// The same, by the words of the symbols.
pub(crate) fn symbol_lists(
    alloc: Global,
    table: &Dyn,
    bytes: &[u8],
    places: &[Option<u32>],
    words: &[u16],
) -> Result<SymbolLists, NoMemory>
    requires { IsTableOf table.now bytes.now }
    ensures versions { IfOk result
        (λ l. l.versions.items ≡ map (version_in bytes.now places.now) words.now) }
    ensures hidden { IfOk result
        (λ l. l.hidden.items ≡ map (λ word. has_bit VERSYM_HIDDEN word) words.now) }
{
    let versions = symbol_versions(alloc, table, bytes, places, words)?;
    let hidden = hidden_marks(alloc, words)?;
    Ok(SymbolLists { versions, hidden })
}

/// The name of each definition, and where it and its first name stand in the file.
#[derive(Drop)]
pub(crate) struct DefinitionLists {
    pub(crate) names: List<Name>,
    pub(crate) places: Vec<(u64, u64)>,
}

/// The same, by what was kept of the definitions.
pub(crate) fn definition_lists(
    alloc: Global,
    table: &Dyn,
    bytes: &[u8],
    definitions: &[Definition],
) -> Result<DefinitionLists, NoMemory>
    requires { IsTableOf table.now bytes.now }
    ensures names { IfOk result
        (λ l. l.names ≡ map (λ d. text_of bytes.now d.name) definitions.now) }
    ensures places { IfOk result (λ l. l.places.items ≡ map places_in definitions.now) }
{
    let names = definition_names(alloc, table, bytes, definitions)?;
    let places = definition_places(alloc, definitions)?;
    Ok(DefinitionLists { names, places })
}

/// The versions that are asked of other files, the number of the need of each, and where it stands
/// in the file.
#[derive(Drop)]
pub(crate) struct AskLists {
    pub(crate) asks: List<Ask>,
    pub(crate) needs: Vec<u32>,
    pub(crate) places: Vec<u64>,
}

/// The same, by what was kept of the asks.
pub(crate) fn ask_lists(
    alloc: Global,
    table: &Dyn,
    bytes: &[u8],
    asked: &[Asked],
) -> Result<AskLists, NoMemory>
    requires { IsTableOf table.now bytes.now }
    ensures asks { IfOk result (λ l. l.asks ≡ map (ask_in bytes.now) asked.now) }
    ensures needs { IfOk result (λ l. l.needs.items ≡ map (λ a. a.need) asked.now) }
    ensures places { IfOk result (λ l. l.places.items ≡ map (λ a. a.place) asked.now) }
{
    let asks = named_asks(alloc, table, bytes, asked)?;
    let needs = need_numbers(alloc, asked)?;
    let places = ask_places(alloc, asked)?;
    Ok(AskLists {
        asks,
        needs,
        places,
    })
}
