//! The version definitions of a file.

ghost use Rattle.std.specs.Prelude.{◌≡◌, ◌≤◌, ◌<◌, ◌+◌, IfOk};
ghost use Rattle.std.specs.Option.{unwrap_or};
ghost use Rattle.answers.specs.Answers.{TellsBy};
ghost use Rattle.byte_view.specs.Dynamic.{dynamic_entries, strings_size, value_of};
ghost use Rattle.byte_view.specs.Sound.{IsReadFrom};
ghost use Rattle.byte_view.specs.declared.constants.TheConstants.{DT_VERDEF, DT_VERDEFNUM, HIGHEST_END};
ghost use Rattle.dyn_table.specs.Table.{IsTableOf};
ghost use Rattle.load_model.specs.VersionFlaws.{bad_verdaux, bad_verdef, verdef_flaw_at, verdefs_flaw};
ghost use Rattle.load_model.specs.VersionTables.{record_count, verdef_count};
ghost use Rattle.version_tables.specs.Faults.{version_fault_flaw};
ghost use Rattle.version_tables.specs.Records.{definition_at, verdaux_words, verdef_words};
ghost use Rattle.version_tables.specs.Walks.{definition_of, from_on};

use crate::chains::check_next;
use crate::faults::{VersionFault, flawed};
use crate::records::{Verdaux, Verdef, verdaux_at, verdef_at};
use crate::tables::{check_text, record_count};
use byte_view::Entry;
use byte_view::constants::{DT_VERDEF, DT_VERDEFNUM, VER_CURRENT, VERSYM_VERSION};
use byte_view::flaws::VERSION_RANGE;
use dyn_table::{Dyn, strings_size, value_of};
use elf_headers::Elf;
use std::alloc::Global;

/// A version definition with its first name.
#[derive(Clone, Copy)]
pub(crate) struct Definition {
    /// The index that it gives its version.
    pub(crate) index: u16,
    /// The string place of its first name.
    pub(crate) name: u32,
    /// Where its Verdef begins in the file.
    pub(crate) place: u64,
    /// Where its first Verdaux begins in the file.
    pub(crate) aux_place: u64,
    /// How far behind it the next one lies, or 0.
    pub(crate) next: u32,
}

/// The Verdef at an address, if it is one.
#[tactic(auto, unfolding(crate::specs::Records::verdef_words))]
fn good_verdef(elf: &Elf, bytes: &[u8], at: u64) -> Result<Verdef, VersionFault>
    requires { IsReadFrom elf.now bytes.now }
    ensures flaw { TellsBy version_fault_flaw result (bad_verdef bytes.now at) }
    ensures words { IfOk result (λ v. v ≡ verdef_words bytes.now at) }
    ensures limit { IfOk result (λ _. at + 20 ≤ HIGHEST_END) }
{
    let Some(verdef) = verdef_at(elf, bytes, at) else {
        return Err(flawed(VERSION_RANGE, at, 0));
    };
    if verdef.version != VER_CURRENT || verdef.cnt == 0 {
        return Err(flawed(VERSION_RANGE, at, 0));
    }
    Ok(verdef)
}

/// The Verdaux at an address, if it is one.
fn good_verdaux(elf: &Elf, bytes: &[u8], at: u64) -> Result<Verdaux, VersionFault>
    requires { IsReadFrom elf.now bytes.now }
    ensures flaw { TellsBy version_fault_flaw result (bad_verdaux bytes.now at) }
    ensures words { IfOk result (λ v. v ≡ verdaux_words bytes.now at) }
{
    match verdaux_at(elf, bytes, at) {
        Some(verdaux) => Ok(verdaux),
        None => Err(flawed(VERSION_RANGE, at, 0)),
    }
}

/// The definition at an address, number `k` of the `said` ones, counted from 0. The string table
/// has so much size.
#[tactic(auto, unfolding(crate::specs::Records::verdef_words, crate::specs::Records::verdaux_words, crate::specs::Records::definition_at))]
fn definition_at(
    elf: &Elf,
    bytes: &[u8],
    size: u64,
    at: u64,
    said: u64,
    k: u64,
) -> Result<Definition, VersionFault>
    requires headers { IsReadFrom elf.now bytes.now }
    requires strings { size ≡ strings_size (dynamic_entries bytes.now) }
    requires count { said ≡ verdef_count bytes.now }
    requires turn { k ≤ at }
    ensures flaw { TellsBy version_fault_flaw result (verdef_flaw_at bytes.now k at) }
    ensures value { IfOk result (λ d. d ≡ definition_at bytes.now at) }
    ensures limit { IfOk result (λ d. at + 20 ≤ HIGHEST_END) }
    ensures step { IfOk result (λ d. k + 1 < said → 0 < d.next) }
{
    let verdef = good_verdef(elf, bytes, at)?;
    let verdaux = good_verdaux(elf, bytes, at + u64::from(verdef.aux))?;
    check_text(size, verdaux.name)?;
    check_next(said, k, verdef.next)?;
    Ok(Definition {
        index: verdef.ndx & VERSYM_VERSION,
        name: verdaux.name,
        place: verdef.place,
        aux_place: verdaux.place,
        next: verdef.next,
    })
}

/// How many definitions there are, by the dynamic table.
fn definition_count(entries: &[Entry]) -> u64
    ensures { result
        ≡ record_count (value_of DT_VERDEF entries.now) (value_of DT_VERDEFNUM entries.now) }
{
    record_count(
        value_of(DT_VERDEF, entries),
        value_of(DT_VERDEFNUM, entries),
    )
}

/// The address of the first definition, or 0.
fn first_definition(entries: &[Entry]) -> u64
    ensures { result ≡ unwrap_or (value_of DT_VERDEF entries.now) 0 }
{
    value_of(DT_VERDEF, entries).unwrap_or(0)
}

/// The definitions in order, as many as the dynamic table says.
///
/// The addresses go up, since only the last record may have a `next` of 0, and each record stands
/// in the file: so the walk ends by the file, whatever the said number is.
pub(crate) fn read_definitions(
    alloc: Global,
    elf: &Elf,
    table: &Dyn,
    bytes: &[u8],
) -> Result<Vec<Definition>, VersionFault>
    requires headers { IsReadFrom elf.now bytes.now }
    requires table { IsTableOf table.now bytes.now }
    ensures flaw { TellsBy version_fault_flaw result (verdefs_flaw bytes.now) }
    ensures kept { IfOk result (λ definitions. definitions.items ≡ from_on (definition_of bytes.now)
        0 (verdef_count bytes.now)) }
{
    let entries = table.entries();
    let size = strings_size(entries);
    let said = definition_count(entries);
    let mut at = first_definition(entries);
    let mut definitions = Vec::new(alloc);
    for k in 0..said {
        let definition = match definition_at(elf, bytes, size, at, said, k) {
            Ok(definition) => definition,
            Err(fault) => return Err(fault),
        };
        at += u64::from(definition.next);
        let Ok(()) = definitions.push(definition) else {
            return Err(VersionFault::NoMemory);
        };
    }
    Ok(definitions)
}
