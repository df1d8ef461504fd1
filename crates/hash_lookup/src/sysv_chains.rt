//! The chains of the hash table of the System V gABI (Hash Table).

ghost use Rattle.std.specs.Prelude.{◌≡◌, ◌<◌, ◌+◌, ◌^◌, IfOk, length, slice_index};
ghost use Rattle.hash_lookup.specs.Chains.{sysv_chain};
ghost use Rattle.hash_lookup.specs.Finding.{found_in, nothing, wish_of};
ghost use Rattle.load_model.specs.Hashes.{sysv_hash};
ghost use Rattle.load_model.specs.SysvTable.{chain};

use crate::buckets::first_of;
use crate::candidates::Lookup;
use crate::finding::Found;
use crate::steps::Steps;
use hash_chains::sysv_hash;
use std::alloc::{AllocError, Global};
use std::marker::Model;
use std::sync::ledger::Ledger;
use sym_tables::SysvTable;

/// The words of a table.
#[derive(Drop)]
pub(crate) struct SysvChains {
    buckets: Vec<u32>,
    chains: Vec<u32>,
}

impl Model for SysvChains {
    ghost use Rattle.load_model.specs.SysvTable.{SysvTable as Table};

    ghost Value = { Table };

    ghost view = { λ t. record { buckets = t.buckets.items; chains = t.chains.items } };
}

impl SysvChains {
    /// A copy of a table.
    pub(crate) fn of(alloc: Global, table: &SysvTable) -> Result<SysvChains, AllocError>
        ensures { IfOk result (λ t. t ≡ table.now) }
    {
        let buckets = table.buckets().to_vec(alloc)?;
        let chains = table.chains().to_vec(alloc)?;
        Ok(SysvChains { buckets, chains })
    }

    /// What is found in the chain of the bucket of a name.
    #[tactic(auto, unfolding(crate::specs::Chains::sysv_chain))]
    pub(crate) fn find<L: Ledger>(&self, lookup: &Lookup<'_>, steps: &mut Steps<L>) -> Found
        requires few { length lookup.now.syms.now < 2 ^ 32 }
        ensures found { result ≡ found_in (wish_of lookup.now) lookup.now.syms.now nothing
            (sysv_chain self.now (sysv_hash lookup.now.name.now)) }
        ensures cost { steps.new
            ≡ steps.old + length (sysv_chain self.now (sysv_hash lookup.now.name.now)) }
    {
        let first = first_of(&self.buckets, sysv_hash(lookup.name));
        along(&self.chains, first, lookup, steps)
    }
}

/// What is found along the chain from a symbol on.
fn along<L: Ledger>(chains: &[u32], first: u32, lookup: &Lookup<'_>, steps: &mut Steps<L>) -> Found
    requires few { length lookup.now.syms.now < 2 ^ 32 }
    ensures found { result ≡ found_in (wish_of lookup.now) lookup.now.syms.now nothing
        (chain (length chains.now) chains.now first) }
    ensures cost { steps.new ≡ steps.old + length (chain (length chains.now) chains.now first) }
{
    let mut found = Found::nothing();
    let mut at = first;
    for _step in 0..chains.len() {
        if at == 0 {
            return found;
        }
        steps.tick();
        found.note(lookup, at as usize);
        at = next_of(chains, at);
    }
    found
}

/// The symbol behind another, 0 where it is the last.
fn next_of(chains: &[u32], at: u32) -> u32
    ensures { result ≡ slice_index chains.now at }
{
    chains.get(at as usize).copied().unwrap_or(0)
}
