//! The hash table.
//!
//! System V gABI, Hash Table.

ghost use Rattle.std.specs.Prelude.{◌≡◌, ◌≤◌, ◌+◌, Some, None, true, false, length, IfOk, MatchOption};
ghost use Rattle.std.specs.List.{list_all};
ghost use Rattle.answers.specs.Answers.{TellsBy};
ghost use Rattle.byte_view.specs.Sound.{IsReadFrom};
ghost use Rattle.load_model.specs.SymbolFlaws.{bad_sysv};
ghost use Rattle.load_model.specs.SysvTable.{is_link, is_sysv_sound, sysv_lists, sysv_place};
ghost use Rattle.sym_tables.specs.Faults.{symbol_fault_flaw};
ghost use Rattle.sym_tables.specs.FoundTables.{IsFoundSysv, IsSysvAt, is_linked, words_table};
ghost use Rattle.sym_tables.specs.Places.{IsSysvPlace, sysv_length, sysv_words};

use crate::faults::{SymFault, flawed};
use crate::words::words;
use byte_view::constants::DT_HASH;
use byte_view::flaws::HASH_RANGE;
use elf_headers::{Elf, word};
use hash_chains::Chains;
use std::alloc::{AllocError, Global};
use std::marker::Model;

/// How many buckets and symbols a table has, and where it begins and ends in the file.
#[derive(Clone, Copy)]
pub(crate) struct SysvPlace {
    buckets: u32,
    symbols: u32,
    from: usize,
    to: usize,
}

/// Where the table at an address is, if memory has it from the file.
#[tactic(auto, unfolding(load_model::specs::SysvTable::sysv_place), using(crate::proofs::Placing::sysv_header, crate::proofs::Placing::sysv_cut))]
fn place(elf: &Elf, bytes: &[u8], addr: u64) -> Option<SysvPlace>
    requires { IsReadFrom elf.now bytes.now }
    ensures { MatchOption result (sysv_place bytes.now elf.now addr ≡ None)
        (λ p. IsSysvPlace p bytes.now elf.now addr) }
{
    let (header, _) = elf.range(addr, 8)?;
    let buckets = word(bytes, header as u64);
    let symbols = word(bytes, header as u64 + 4);
    let (from, to) = elf.range(addr, 8 + 4 * u64::from(buckets) + 4 * u64::from(symbols))?;
    Some(SysvPlace {
        buckets,
        symbols,
        from,
        to,
    })
}

fn is_link(n: usize, word: u32) -> bool
    ensures { result ≡ is_link n word }
{
    word == 0 || (word as usize) < n
}

fn all_links(n: usize, words: &[u32]) -> bool
    ensures { result ≡ list_all (λ w. is_link n w) words.now }
{
    words.iter().all(|w| is_link(n, *w))
}

/// The words of a table: the first symbol of each bucket, and for each symbol the next of its
/// chain; 0 is no symbol.
#[derive(Drop)]
struct SysvWords {
    buckets: Vec<u32>,
    chains: Vec<u32>,
}

impl SysvWords {
    /// The words at a place.
    fn read(alloc: Global, bytes: &[u8], place: &SysvPlace) -> Result<SysvWords, AllocError>
        requires { place.now.from + sysv_length place.now ≤ length bytes.now }
        ensures { IfOk result (λ w. words_table w ≡ sysv_words bytes.now place.now) }
    {
        let from = place.from as u64 + 8;
        let buckets = words(alloc, bytes, from, u64::from(place.buckets))?;
        let after = from + 4 * u64::from(place.buckets);
        let chains = words(alloc, bytes, after, u64::from(place.symbols))?;
        Ok(SysvWords { buckets, chains })
    }

    /// Whether there is a bucket, and each word names a symbol or none.
    fn are_linked(&self) -> bool
        ensures { result ≡ is_linked (words_table self.now) }
    {
        let symbols = self.chains.len();
        !self.buckets.is_empty()
            && all_links(symbols, &self.buckets)
            && all_links(symbols, &self.chains)
    }

    /// The table of these words, if it is sound: its chains end.
    #[tactic(auto, using(crate::proofs::Linked::unlinked, crate::proofs::Linked::endless, crate::proofs::Linked::sound, crate::proofs::Linked::chains_linked, crate::proofs::Linked::buckets_linked))]
    fn finish(self, alloc: Global) -> Result<Option<SysvTable>, AllocError>
        ensures { IfOk result
            (λ found. MatchOption found (is_sysv_sound (words_table self) ≡ false)
            (λ t. (t ≡ words_table self) × (is_sysv_sound (words_table self) ≡ true))) }
    {
        if !self.are_linked() {
            return Ok(None);
        }
        let mut chains = Chains::new(alloc, self.chains)?;
        if !chains.measure_all(alloc, &self.buckets)? {
            return Ok(None);
        }
        Ok(Some(SysvTable {
            buckets: self.buckets,
            chains,
        }))
    }
}

/// A table whose chains end.
#[derive(Drop)]
pub struct SysvTable {
    buckets: Vec<u32>,
    chains: Chains,
}

impl Model for SysvTable {
    ghost use Rattle.load_model.specs.SysvTable.{SysvTable as Table};
    ghost use Rattle.hash_chains.specs.Depths.{AreHeadsKnown};

    ghost Value = { Table };

    ghost view = { λ t. record { buckets = t.buckets.items; chains = t.chains.next.items } };

    ghost invariant = { λ t. AreHeadsKnown t.chains t.buckets.items };
}

impl SysvTable {
    /// How many symbols the table has a chain word for.
    pub(crate) fn symbols(&self) -> usize
        ensures { result ≡ length self.now.chains }
    {
        self.chains.len()
    }

    /// The first symbol of each bucket, 0 where it has none.
    pub fn buckets(&self) -> &[u32]
        ensures { result.now ≡ self.now.buckets }
    {
        &self.buckets
    }

    /// For each symbol the next of its chain, 0 where it is the last.
    pub fn chains(&self) -> &[u32]
        ensures { result.now ≡ self.now.chains }
    {
        &self.chains.next
    }

    /// Whether the table lists a symbol whose name has this hash.
    #[tactic(auto, unfolding(load_model::specs::SysvTable::sysv_lists))]
    pub(crate) fn lists(&self, hash: u32, symbol: usize) -> bool
        requires { 1 ≤ length self.now.buckets }
        ensures { result ≡ sysv_lists self.now hash symbol }
    {
        let bucket = hash as usize % self.buckets.len();
        self.chains.stands(self.buckets[bucket], symbol)
    }
}

/// A table, and where it begins and ends in the file.
#[derive(Drop)]
pub(crate) struct FoundSysv {
    pub(crate) table: SysvTable,
    pub(crate) range: (usize, usize),
}

impl FoundSysv {
    /// The table at an address.
    #[tactic(auto, using(crate::proofs::Placing::sysv_fits, crate::proofs::Placing::sysv_there))]
    fn read_at(alloc: Global, elf: &Elf, bytes: &[u8], addr: u64) -> Result<FoundSysv, SymFault>
        requires { IsReadFrom elf.now bytes.now }
        ensures flaw { TellsBy symbol_fault_flaw result (bad_sysv bytes.now elf.now (Some addr)) }
        ensures table { IfOk result (λ f. IsFoundSysv f bytes.now elf.now addr) }
    {
        let Some(place) = place(elf, bytes, addr) else {
            return Err(flawed(HASH_RANGE, DT_HASH));
        };
        let Ok(words) = SysvWords::read(alloc, bytes, &place) else {
            return Err(SymFault::NoMemory);
        };
        match words.finish(alloc) {
            Ok(Some(table)) => Ok(FoundSysv {
                table,
                range: (place.from, place.to),
            }),
            Ok(None) => Err(flawed(HASH_RANGE, DT_HASH)),
            Err(_) => Err(SymFault::NoMemory),
        }
    }

    /// The table at an address, if the file has one.
    pub(crate) fn read(
        alloc: Global,
        elf: &Elf,
        bytes: &[u8],
        at: Option<u64>,
    ) -> Result<Option<FoundSysv>, SymFault>
        requires { IsReadFrom elf.now bytes.now }
        ensures flaw { TellsBy symbol_fault_flaw result (bad_sysv bytes.now elf.now at) }
        ensures table { IfOk result (λ found. IsSysvAt found bytes.now elf.now at) }
    {
        match at {
            Some(addr) => match FoundSysv::read_at(alloc, elf, bytes, addr) {
                Ok(found) => Ok(Some(found)),
                Err(fault) => Err(fault),
            },
            None => Ok(None),
        }
    }
}
