//! The needed versions of a file.

ghost use Rattle.std.specs.Prelude.{◌≡◌, ◌≤◌, ◌<◌, ◌+◌, ◌++◌, ◌∷◌, [], length, IfOk};
ghost use Rattle.std.specs.Option.{unwrap_or};
ghost use Rattle.answers.specs.Answers.{TellsBy};
ghost use Rattle.answers.specs.First.{first_some};
ghost use Rattle.byte_view.specs.Dynamic.{dynamic_entries, strings_size, value_of};
ghost use Rattle.byte_view.specs.Sound.{IsReadFrom};
ghost use Rattle.byte_view.specs.declared.constants.TheConstants.{DT_VERNEED, DT_VERNEEDNUM, HIGHEST_END};
ghost use Rattle.dyn_table.specs.Table.{IsTableOf};
ghost use Rattle.load_model.specs.VersionFlaws.{bad_text, bad_verneed, verneed_flaw_at, verneeds_flaw};
ghost use Rattle.load_model.specs.VersionTables.{record_count, verneed_count, vn_file};
ghost use Rattle.version_tables.specs.Faults.{version_fault_flaw};
ghost use Rattle.version_tables.specs.Records.{verneed_words};
ghost use Rattle.version_tables.specs.Walks.{asked_of_record, asked_of_need, file_word_of, from_on, lists_from};

use crate::asked::{Asked, read_asked};
use crate::chains::check_next;
use crate::faults::{VersionFault, flawed};
use crate::records::{Verneed, verneed_at};
use crate::tables::{check_text, record_count};
use byte_view::Entry;
use byte_view::constants::{DT_VERNEED, DT_VERNEEDNUM, VER_CURRENT};
use byte_view::flaws::VERSION_RANGE;
use dyn_table::{Dyn, strings_size, value_of};
use elf_headers::Elf;
use std::alloc::Global;

/// What a file asks of others.
#[derive(Drop)]
pub(crate) struct Needs {
    /// Where the word with the file's name begins in the file, of each Verneed.
    pub(crate) file_words: Vec<u64>,
    /// The versions, need by need.
    pub(crate) asks: Vec<Asked>,
}

/// The Verneed at an address, if it is one.
#[tactic(auto, unfolding(crate::specs::Records::verneed_words))]
fn good_verneed(elf: &Elf, bytes: &[u8], size: u64, at: u64) -> Result<Verneed, VersionFault>
    requires headers { IsReadFrom elf.now bytes.now }
    requires strings { size ≡ strings_size (dynamic_entries bytes.now) }
    ensures flaw { TellsBy version_fault_flaw result (first_some (bad_verneed bytes.now at ∷
        bad_text bytes.now (vn_file bytes.now at) ∷ [])) }
    ensures words { IfOk result (λ v. v ≡ verneed_words bytes.now at) }
    ensures limit { IfOk result (λ _. at + 16 ≤ HIGHEST_END) }
    ensures within { IfOk result (λ v. v.place + 16 ≤ length bytes.now) }
{
    let Some(verneed) = verneed_at(elf, bytes, at) else {
        return Err(flawed(VERSION_RANGE, at, 0));
    };
    if verneed.version != VER_CURRENT {
        return Err(flawed(VERSION_RANGE, at, 0));
    }
    check_text(size, verneed.file)?;
    Ok(verneed)
}

/// The need at an address, number `k` of the `said` ones, counted from 0. Its versions are added.
#[tactic(auto, unfolding(crate::specs::Records::verneed_words))]
fn read_need(
    elf: &Elf,
    bytes: &[u8],
    size: u64,
    at: u64,
    said: u64,
    k: u64,
    asks: &mut Vec<Asked>,
) -> Result<Verneed, VersionFault>
    requires headers { IsReadFrom elf.now bytes.now }
    requires strings { size ≡ strings_size (dynamic_entries bytes.now) }
    requires count { said ≡ verneed_count bytes.now }
    requires turn { k ≤ at }
    ensures flaw { TellsBy version_fault_flaw result (verneed_flaw_at bytes.now k at) }
    ensures kept { IfOk result (λ _. asks.new.items ≡ asks.old.items ++ asked_of_record bytes.now k
        at) }
    ensures words { IfOk result (λ v. v ≡ verneed_words bytes.now at) }
    ensures limit { IfOk result (λ _. at + 16 ≤ HIGHEST_END) }
    ensures within { IfOk result (λ v. v.place + 16 ≤ length bytes.now) }
    ensures step { IfOk result (λ v. k + 1 < said → 0 < v.next) }
{
    let verneed = good_verneed(elf, bytes, size, at)?;
    let Ok(number) = u32::try_from(k) else {
        return Err(VersionFault::NoMemory);
    };
    read_asked(elf, bytes, size, number, at, &verneed, asks)?;
    check_next(said, k, verneed.next)?;
    Ok(verneed)
}

/// How many needs there are, by the dynamic table.
fn need_count(entries: &[Entry]) -> u64
    ensures { result
        ≡ record_count (value_of DT_VERNEED entries.now) (value_of DT_VERNEEDNUM entries.now) }
{
    record_count(
        value_of(DT_VERNEED, entries),
        value_of(DT_VERNEEDNUM, entries),
    )
}

/// The address of the first need, or 0.
fn first_need(entries: &[Entry]) -> u64
    ensures { result ≡ unwrap_or (value_of DT_VERNEED entries.now) 0 }
{
    value_of(DT_VERNEED, entries).unwrap_or(0)
}

/// The needs in order, as many as the dynamic table says.
///
/// The addresses go up, since only the last record may have a `next` of 0, and each record stands
/// in the file: so the walk ends by the file, whatever the said number is.
pub(crate) fn read_needs(
    alloc: Global,
    elf: &Elf,
    table: &Dyn,
    bytes: &[u8],
) -> Result<Needs, VersionFault>
    requires headers { IsReadFrom elf.now bytes.now }
    requires table { IsTableOf table.now bytes.now }
    ensures flaw { TellsBy version_fault_flaw result (verneeds_flaw bytes.now) }
    ensures file_words { IfOk result (λ needs. needs.file_words.items ≡ from_on (file_word_of
        bytes.now) 0 (verneed_count bytes.now)) }
    ensures asks { IfOk result (λ needs. needs.asks.items ≡ lists_from (asked_of_need bytes.now) 0
        (verneed_count bytes.now)) }
{
    let entries = table.entries();
    let size = strings_size(entries);
    let said = need_count(entries);
    let mut at = first_need(entries);
    let mut file_words = Vec::new(alloc);
    let mut asks = Vec::new(alloc);
    for k in 0..said {
        let verneed = match read_need(elf, bytes, size, at, said, k, &mut asks) {
            Ok(verneed) => verneed,
            Err(fault) => return Err(fault),
        };
        let file_word = verneed.place + 4;
        let Ok(()) = file_words.push(file_word) else {
            return Err(VersionFault::NoMemory);
        };
        at += u64::from(verneed.next);
    }
    Ok(Needs { file_words, asks })
}
