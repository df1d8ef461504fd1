//! The version indexes of the symbols.

ghost use Rattle.std.specs.Prelude.{◌≡◌, ◌≤◌, ◌+◌, ◌*◌, None, length, map, IfOk};
ghost use Rattle.std.specs.List.{range_with_len};
ghost use Rattle.answers.specs.Answers.{TellsBy};
ghost use Rattle.answers.specs.First.{first_some, some_where};
ghost use Rattle.byte_view.specs.Checks.{flaw};
ghost use Rattle.byte_view.specs.DynamicFlaws.{has_bit};
ghost use Rattle.byte_view.specs.Numbers.{number_at};
ghost use Rattle.byte_view.specs.Sound.{IsReadFrom};
ghost use Rattle.byte_view.specs.declared.constants.TheConstants.{VER_NDX_GLOBAL, VERSYM_HIDDEN};
ghost use Rattle.dyn_table.specs.Table.{IsTableOf};
ghost use Rattle.load_model.specs.VersionFlaws.{bad_versym, is_unbacked};
ghost use Rattle.load_model.specs.VersionTables.{memory_number};
ghost use Rattle.version_tables.specs.Faults.{version_fault_flaw};
ghost use Rattle.version_tables.specs.Indexes.{symbol_word, unknown_at, unknown_word};
ghost use Rattle.version_tables.specs.Walks.{from_on};

use crate::faults::{VersionFault, flawed};
use crate::indexes::place_in;
use crate::memory::backed;
use byte_view::constants::{DT_VERSYM, VER_NDX_GLOBAL, VERSYM_HIDDEN, VERSYM_VERSION};
use byte_view::flaws::{UNKNOWN_INDEX, VERSION_RANGE};
use dyn_table::{Dyn, value_of};
use elf_headers::{Elf, half};
use std::alloc::{AllocError, Global};

/// The words of a table in the file.
fn words_at(alloc: Global, bytes: &[u8], place: u64, count: u32) -> Result<Vec<u16>, AllocError>
    requires { place + 2 * count ≤ length bytes.now }
    ensures { IfOk result
        (λ words. words.items
        ≡ map (λ i. number_at 2 bytes.now (place + 2 * i)) (range_with_len 0 count)) }
{
    (0..u64::from(count))
        .map(|i| half(bytes, place + 2 * i))
        .collect(alloc)
}

/// The words of versym, which lies at an address.
fn versym_words(
    alloc: Global,
    elf: &Elf,
    bytes: &[u8],
    at: u64,
    count: u32,
) -> Result<Vec<u16>, VersionFault>
    requires { IsReadFrom elf.now bytes.now }
    ensures flaw { TellsBy version_fault_flaw result (some_where (is_unbacked bytes.now at (2 *
        count)) (flaw VERSION_RANGE at 0)) }
    ensures words { IfOk result (λ words. words.items ≡ map (λ i. memory_number 2 bytes.now (at +
        2 * i)) (range_with_len 0 count)) }
{
    let Some(place) = backed(elf, bytes, at, 2 * u64::from(count)) else {
        return Err(flawed(VERSION_RANGE, at, 0));
    };
    match words_at(alloc, bytes, place, count) {
        Ok(words) => Ok(words),
        Err(_) => Err(VersionFault::NoMemory),
    }
}

/// The words of symbols that have no versions.
fn plain_words(alloc: Global, count: u32) -> Result<Vec<u16>, VersionFault>
    ensures flaw { TellsBy version_fault_flaw result None }
    ensures words { IfOk result (λ words. words.items ≡ map (λ _. VER_NDX_GLOBAL) (range_with_len 0
        count)) }
{
    match (0..u64::from(count)).map(|_| VER_NDX_GLOBAL).collect(alloc) {
        Ok(words) => Ok(words),
        Err(_) => Err(VersionFault::NoMemory),
    }
}

/// The word of each symbol with its version index and whether it is hidden.
#[tactic(auto, using(crate::proofs::SymbolWords::versym_symbol_words, crate::proofs::SymbolWords::plain_symbol_words))]
pub(crate) fn read_words(
    alloc: Global,
    elf: &Elf,
    table: &Dyn,
    bytes: &[u8],
    count: u32,
) -> Result<Vec<u16>, VersionFault>
    requires headers { IsReadFrom elf.now bytes.now }
    requires table { IsTableOf table.now bytes.now }
    ensures flaw { TellsBy version_fault_flaw result (bad_versym count bytes.now) }
    ensures words { IfOk result (λ words. words.items ≡ map (symbol_word bytes.now) (range_with_len
        0 count)) }
{
    match value_of(DT_VERSYM, table.entries()) {
        Some(at) => versym_words(alloc, elf, bytes, at, count),
        None => plain_words(alloc, count),
    }
}

/// Does the version index of a symbol have a name, if it needs one?
fn check_index(places: &[Option<u32>], symbol: u64, word: u16) -> Result<(), VersionFault>
    ensures { TellsBy version_fault_flaw result (unknown_word places.now symbol word) }
{
    let index = word & VERSYM_VERSION;
    if index > VER_NDX_GLOBAL && place_in(places, index).is_none() {
        return Err(flawed(UNKNOWN_INDEX, symbol, u64::from(index)));
    }
    Ok(())
}

/// Does the version index of each symbol have a name, if it needs one?
pub(crate) fn check_indexes(words: &[u16], places: &[Option<u32>]) -> Result<(), VersionFault>
    ensures { TellsBy version_fault_flaw result
        (first_some (from_on (unknown_at places.now words.now) 0 (length words.now))) }
{
    for (symbol, word) in words.iter().enumerate() {
        match check_index(places, symbol as u64, *word) {
            Ok(()) => {}
            Err(fault) => return Err(fault),
        }
    }
    Ok(())
}

/// Is the definition not the default of its name, of each symbol?
pub(crate) fn hidden_marks(alloc: Global, words: &[u16]) -> Result<Vec<bool>, AllocError>
    ensures { IfOk result
        (λ marks. marks.items ≡ map (λ word. has_bit VERSYM_HIDDEN word) words.now) }
{
    words
        .iter()
        .map(|word| *word & VERSYM_HIDDEN != 0)
        .collect(alloc)
}
