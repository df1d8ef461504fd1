//! What is kept of all version tables of a file, before names are copied.

ghost use Rattle.std.specs.Prelude.{◌≡◌, ◌<◌, ◌^◌, length, IfOk};
ghost use Rattle.answers.specs.Answers.{TellsBy};
ghost use Rattle.byte_view.specs.Sound.{IsReadFrom};
ghost use Rattle.dyn_table.specs.Table.{IsTableOf};
ghost use Rattle.load_model.specs.VersionFlaws.{version_flaw};
ghost use Rattle.load_model.specs.VersionTables.{indexed_names};
ghost use Rattle.version_tables.specs.Faults.{version_fault_flaw};
ghost use Rattle.version_tables.specs.Indexes.{AreFirst, index_count};
ghost use Rattle.version_tables.specs.VersionLists.{AreVersionTablesOf};

use crate::definitions::{Definition, read_definitions};
use crate::faults::VersionFault;
use crate::indexes::{first_names, index_count};
use crate::needs::{Needs, read_needs};
use crate::symbols::{check_indexes, read_words};
use dyn_table::Dyn;
use elf_headers::Elf;
use std::alloc::Global;

/// What is kept of all version tables.
#[derive(Drop)]
pub(crate) struct Kept {
    /// The word of each symbol.
    pub(crate) words: Vec<u16>,
    pub(crate) definitions: Vec<Definition>,
    pub(crate) needs: Needs,
    /// The string place of the name of each version index, where the symbols have such.
    pub(crate) places: Vec<Option<u32>>,
}

/// Reads all version tables.
///
/// Asks that `u32` can't count are more than there is memory for.
#[tactic(auto, unfolding(load_model::specs::VersionFlaws::version_flaw))]
pub(crate) fn read_kept(
    alloc: Global,
    elf: &Elf,
    table: &Dyn,
    count: u32,
    bytes: &[u8],
) -> Result<Kept, VersionFault>
    requires headers { IsReadFrom elf.now bytes.now }
    requires table { IsTableOf table.now bytes.now }
    ensures flaw { TellsBy version_fault_flaw result (version_flaw count bytes.now) }
    ensures kept { IfOk result (λ k. AreVersionTablesOf k.words.items k.definitions.items
        k.needs.file_words.items k.needs.asks.items count bytes.now) }
    ensures names { IfOk result (λ k. AreFirst (index_count bytes.now) k.places.items (indexed_names
        bytes.now)) }
    ensures few { IfOk result (λ k. length k.needs.asks.items < 2 ^ 32) }
{
    let words = read_words(alloc, elf, table, bytes, count)?;
    let definitions = read_definitions(alloc, elf, table, bytes)?;
    let needs = read_needs(alloc, elf, table, bytes)?;
    if needs.asks.len() > u32::MAX as usize {
        return Err(VersionFault::NoMemory);
    }
    let size = index_count(table.entries());
    let Ok(places) = first_names(alloc, size, &definitions, &needs.asks) else {
        return Err(VersionFault::NoMemory);
    };
    match check_indexes(&words, &places) {
        Ok(()) => Ok(Kept {
            words,
            definitions,
            needs,
            places,
        }),
        Err(fault) => Err(fault),
    }
}
