//! The chains of a hash table of the GNU tools, and its Bloom filter.

ghost use Rattle.std.specs.Prelude.{◌≡◌, ◌≤◌, ◌<◌, ◌+◌, ◌^◌, IfOk, length};
ghost use Rattle.hash_lookup.specs.Chains.{gnu_chain, gnu_matches, chain_along, chain_at, with_hash};
ghost use Rattle.hash_lookup.specs.Finding.{found_in, nothing, wish_of};
ghost use Rattle.load_model.specs.GnuTable.{is_last, passes_bloom};
ghost use Rattle.load_model.specs.Hashes.{gnu_hash};

use crate::buckets::first_of;
use crate::candidates::Lookup;
use crate::finding::Found;
use crate::steps::Steps;
use hash_chains::gnu_hash;
use std::alloc::{AllocError, Global};
use std::marker::Model;
use std::sync::ledger::Ledger;
use sym_tables::{GnuTable, has_bit};

/// The words of a table.
#[derive(Drop)]
pub(crate) struct GnuChains {
    offset: u32,
    shift: u32,
    bloom: Vec<u64>,
    buckets: Vec<u32>,
    words: Vec<u32>,
}

impl Model for GnuChains {
    ghost use Rattle.std.specs.Prelude.{◌<◌};
    ghost use Rattle.load_model.specs.GnuTable.{GnuTable as Table};

    ghost Value = { Table };

    ghost view = { λ t. record {
      offset = t.offset;
      shift = t.shift;
      bloom = t.bloom.items;
      buckets = t.buckets.items;
      words = t.words.items;
    } };

    ghost invariant = { λ t. t.shift < 32 };
}

impl GnuChains {
    /// A copy of a table.
    pub(crate) fn of(alloc: Global, table: &GnuTable) -> Result<GnuChains, AllocError>
        ensures { IfOk result (λ t. t ≡ table.now) }
    {
        let bloom = table.bloom().to_vec(alloc)?;
        let buckets = table.buckets().to_vec(alloc)?;
        let words = table.words().to_vec(alloc)?;
        Ok(GnuChains {
            offset: table.offset(),
            shift: table.shift(),
            bloom,
            buckets,
            words,
        })
    }

    /// What is found in the chain of the bucket of a name, once the Bloom filter lets its hash
    /// pass. Names are compared only where the chain word is that of the name's hash.
    pub(crate) fn find<L: Ledger>(&self, lookup: &Lookup<'_>, steps: &mut Steps<L>) -> Found
        requires few { length lookup.now.syms.now < 2 ^ 32 }
        ensures found { result ≡ found_in (wish_of lookup.now) lookup.now.syms.now nothing
            (gnu_matches self.now (gnu_hash lookup.now.name.now)) }
        ensures cost { steps.new
            ≤ steps.old + length (gnu_chain self.now (gnu_hash lookup.now.name.now)) }
    {
        let hash = gnu_hash(lookup.name);
        if !self.passes_bloom(hash) {
            return Found::nothing();
        }
        let first = first_of(&self.buckets, hash);
        along(first, self.words_from(first), hash, lookup, steps)
    }

    /// Whether the Bloom filter lets a hash pass.
    #[tactic(auto, unfolding(load_model::specs::GnuTable::passes_bloom))]
    fn passes_bloom(&self, hash: u32) -> bool
        ensures { result ≡ passes_bloom self.now hash }
    {
        if self.bloom.is_empty() {
            return false;
        }
        let word = self.bloom[hash as usize / 64 % self.bloom.len()];
        has_bit(word, hash % 64) && has_bit(word, (hash >> self.shift) % 64)
    }

    /// The chain words from a symbol on; none from 0 on, nor from a symbol that is not listed.
    #[tactic(auto, unfolding(crate::specs::Chains::chain_along, crate::specs::Chains::chain_at))]
    fn words_from(&self, first: u32) -> &[u32]
        ensures { chain_along first result.now ≡ chain_at self.now first }
    {
        if first == 0 || first < self.offset {
            return &[];
        }
        let place = (first - self.offset) as usize;
        if place < self.words.len() {
            &self.words[place..]
        } else {
            &[]
        }
    }
}

/// What is found along the chain of these words, whose first is that of the symbol `first`.
fn along<L: Ledger>(
    first: u32,
    words: &[u32],
    hash: u32,
    lookup: &Lookup<'_>,
    steps: &mut Steps<L>,
) -> Found
    requires few { length lookup.now.syms.now < 2 ^ 32 }
    ensures found { result ≡ found_in (wish_of lookup.now) lookup.now.syms.now nothing
        (with_hash hash (chain_along first words.now)) }
    ensures cost { steps.new ≡ steps.old + length (chain_along first words.now) }
{
    let mut found = Found::nothing();
    for (k, word) in words.iter().enumerate() {
        steps.tick();
        if *word / 2 == hash / 2 {
            found.note(lookup, first as usize + k);
        }
        if is_last(*word) {
            return found;
        }
    }
    found
}

/// Whether a chain ends at the symbol of this word.
fn is_last(word: u32) -> bool
    ensures { result ≡ is_last word }
{
    word % 2 == 1
}
