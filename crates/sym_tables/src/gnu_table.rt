//! A table of the GNU tools, asked for the symbols that it lists.

ghost use Rattle.std.specs.Prelude.{[], ◌≡◌, ◌+◌, ◌-◌, ◌<◌, ◌^◌, ◌&&◌, true, IfOk, cond, length, nat_le, nat_lt, slice_index};
ghost use Rattle.load_model.specs.GnuTable.{gnu_lists, has_bit_of, is_gnu_sound, is_in_run, is_last, passes_bloom};
ghost use Rattle.sym_tables.specs.FoundTables.{front_table};
ghost use Rattle.sym_tables.specs.Runs.{AreStarts};

use crate::gnu_front::Front;
use crate::gnu_reach::is_last;
use std::alloc::{AllocError, Global};
use std::marker::Model;

/// Where the chain of the next word begins: behind a word that ends one, or where that of this word
/// does.
fn next_start(start: usize, k: usize, word: u32) -> usize
    requires { k < 2 ^ 63 }
    ensures { result ≡ cond (is_last word) (k + 1) start }
{
    if is_last(word) { k + 1 } else { start }
}

/// The places of the chain words at which their chains begin, counted from the first chain word.
#[tactic(auto, using(crate::proofs::Runs::starts_none, crate::proofs::Runs::starts_all))]
fn starts_of(alloc: Global, words: &[u32]) -> Result<Vec<usize>, AllocError>
    ensures { IfOk result (λ starts. AreStarts starts.items words.now) }
{
    let mut starts = Vec::new(alloc);
    let mut start = 0;
    for (k, w) in words.iter().enumerate() {
        starts.push(start)?;
        start = next_start(start, k, *w);
    }
    Ok(starts)
}

/// Is a bit of a word set?
pub fn has_bit(word: u64, bit: u32) -> bool
    requires { bit < 64 }
    ensures { result ≡ has_bit_of word bit }
{
    (word >> bit) % 2 == 1
}

/// Does the chain of the word at a place begin at another word or before it?
fn begins_by(starts: &[usize], place: usize, first: usize) -> bool
    ensures { result
        ≡ (nat_lt place (length starts.now) && nat_le (slice_index starts.now place) first) }
{
    match starts.get(place) {
        Some(start) => *start <= first,
        None => false,
    }
}

/// The table, and for each chain word the place at which its chain begins.
#[derive(Drop)]
pub struct GnuTable {
    offset: u32,
    shift: u32,
    bloom: Vec<u64>,
    buckets: Vec<u32>,
    words: Vec<u32>,
    starts: Vec<usize>,
}

impl Model for GnuTable {
    ghost use Rattle.load_model.specs.GnuTable.{GnuTable as Table};
    ghost use Rattle.sym_tables.specs.Runs.{IsUsable};

    ghost Value = { Table };

    ghost view = { λ t. record {
      offset = t.offset;
      shift = t.shift;
      bloom = t.bloom.items;
      buckets = t.buckets.items;
      words = t.words.items;
    } };

    ghost invariant = { λ t. IsUsable t.shift t.bloom.items t.buckets.items t.words.items t.starts.items };
}

impl GnuTable {
    /// The table with these parts and these chain words.
    #[tactic(auto, using(crate::proofs::GnuParts::usable))]
    pub(crate) fn new(alloc: Global, front: Front, words: Vec<u32>) -> Result<GnuTable, AllocError>
        requires { is_gnu_sound (front_table front []) ≡ true }
        ensures { IfOk result (λ t. t ≡ front_table front words.items) }
    {
        let starts = starts_of(alloc, &words)?;
        Ok(GnuTable {
            offset: front.offset,
            shift: front.shift,
            bloom: front.bloom,
            buckets: front.buckets,
            words,
            starts,
        })
    }

    /// The first symbol that is listed.
    pub fn offset(&self) -> u32
        ensures { result ≡ self.now.offset }
    {
        self.offset
    }

    /// By how much a hash is shifted for the second of its bits in the Bloom filter.
    pub fn shift(&self) -> u32
        ensures value { result ≡ self.now.shift }
        ensures little { result < 32 }
    {
        self.shift
    }

    /// The words of the Bloom filter.
    pub fn bloom(&self) -> &[u64]
        ensures { result.now ≡ self.now.bloom }
    {
        &self.bloom
    }

    /// The first symbol of each bucket, 0 where it has none.
    pub fn buckets(&self) -> &[u32]
        ensures { result.now ≡ self.now.buckets }
    {
        &self.buckets
    }

    /// The chain words of the symbols from the first listed one on.
    pub fn words(&self) -> &[u32]
        ensures { result.now ≡ self.now.words }
    {
        &self.words
    }

    /// Does the Bloom filter let a hash pass?
    #[tactic(auto, unfolding(load_model::specs::GnuTable::passes_bloom))]
    fn passes_bloom(&self, hash: u32) -> bool
        ensures { result ≡ passes_bloom self.now hash }
    {
        let word = self.bloom[hash as usize / 64 % self.bloom.len()];
        has_bit(word, hash % 64) && has_bit(word, (hash >> self.shift) % 64)
    }

    /// Does a symbol stand in the chain that begins at another?
    #[tactic(auto, unfolding(load_model::specs::GnuTable::is_in_run))]
    fn is_in_run(&self, first: u32, symbol: usize) -> bool
        ensures { result ≡ is_in_run self.now.offset self.now.words first symbol }
    {
        let first = first as usize;
        let offset = self.offset as usize;
        if first == 0 || first < offset || symbol < first {
            return false;
        }
        begins_by(&self.starts, symbol - offset, first - offset)
    }

    /// The chain word of a symbol, or 0 where it has none.
    fn word_of(&self, symbol: usize) -> u32
        ensures { result ≡ slice_index self.now.words (symbol - self.now.offset) }
    {
        let place = symbol.saturating_sub(self.offset as usize);
        self.words.get(place).copied().unwrap_or(0)
    }

    /// Does the table list a symbol whose name has this hash?
    #[tactic(auto, unfolding(load_model::specs::GnuTable::gnu_lists))]
    pub(crate) fn lists(&self, hash: u32, symbol: usize) -> bool
        ensures { result ≡ gnu_lists self.now hash symbol }
    {
        let first = self.buckets[hash as usize % self.buckets.len()];
        self.passes_bloom(hash)
            && self.is_in_run(first, symbol)
            && self.word_of(symbol) / 2 == hash / 2
    }
}
