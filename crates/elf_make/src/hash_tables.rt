//! Symbol hash tables of one bucket.
//!
//! System V gABI, Hash Table; the GNU hash table.

ghost use Rattle.std.specs.Prelude.{[], ◌∷◌, ◌≡◌, ◌-◌, ◌++◌, cond, map, drop, IfOk, OnOk};
ghost use Rattle.elf_shape.specs.Bytes.{longs, words};
ghost use Rattle.elf_shape.specs.Versions.{is_none_of};
ghost use Rattle.std.specs.List.{range_with_len};
ghost use Rattle.elf_make.specs.HashTables.{made_sysv_table, with_bits, bloom_word, made_bloom_shift, chain_words, gnu_words, made_gnu_table};

use elf_shape::numbers::{push_longs, push_words};
use elf_shape::symbols::Symbol;
use load_model::{List, NoMemory, Text};
use std::alloc::{AllocError, Global};

/// The chain that leads from each symbol to the one before.
fn chain_down(alloc: Global, count: u32) -> Result<Vec<u32>, AllocError>
    ensures { IfOk result (λ chain. chain.items ≡ map (λ i. i - 1) (range_with_len 0 count)) }
{
    (0..count).map(|i| i.saturating_sub(1)).collect(alloc)
}

/// The System V table of so many symbols: the bucket holds the greatest index, and each symbol
/// leads to the one before.
#[tactic(auto, unfolding(crate::specs::HashTables::made_sysv_table))]
pub(crate) fn sysv_table(alloc: Global, count: u32) -> Result<Text, NoMemory>
    ensures { IfOk result (λ table. table ≡ made_sysv_table count) }
{
    let chain = chain_down(alloc, count)?;
    let mut table = Vec::new(alloc);
    push_words(&mut table, &[1, count, count.saturating_sub(1)])?;
    push_words(&mut table, chain.as_slice())?;
    Ok(Text::from_vec(table))
}

/// How far a hash is shifted for the second bit of the Bloom word.
const BLOOM_SHIFT: u32 = 6;

/// The Bloom word with the two bits of a hash.
fn with_bits(word: u64, hash: u32) -> u64
    ensures { result ≡ with_bits word hash }
{
    word | 1 << (hash % 64) | 1 << ((hash >> BLOOM_SHIFT) % 64)
}

/// The Bloom word of these hashes.
#[tactic(auto, unfolding(crate::specs::HashTables::bloom_word))]
fn bloom_word(hashes: &[u32]) -> u64
    ensures { result ≡ bloom_word hashes.now }
{
    hashes.iter().fold(0, |word, hash| with_bits(word, *hash))
}

/// The chain of these hashes: the low bit is 1 in the last alone.
fn chain_words(alloc: Global, hashes: &[u32]) -> Result<List<u32>, NoMemory>
    ensures { IfOk result (λ chain. chain ≡ chain_words hashes.now) }
{
    let mut chain = List::new(alloc);
    let mut rest = hashes;
    'chain: while let Some((hash, more)) = rest.split_first() {
        let end = if more.is_empty() { 1 } else { 0 };
        chain.push(hash / 2 * 2 + end)?;
        rest = more;
    }
    Ok(chain)
}

/// Appends what comes before the chain of a GNU table.
fn push_gnu_front(out: &mut Vec<u8>, offset: u32, hashes: &[u32]) -> Result<(), NoMemory>
    ensures { OnOk result
        (out.new.items
        ≡ out.old.items
        ++ (words (1 ∷ offset ∷ 1 ∷ made_bloom_shift ∷ [])
        ++ (longs (bloom_word hashes.now ∷ [])
        ++ words (cond (is_none_of hashes.now) 0 offset ∷ [])))) }
{
    let bucket = if hashes.is_empty() { 0 } else { offset };
    push_words(out, &[1, offset, 1, BLOOM_SHIFT])?;
    push_longs(out, &[bloom_word(hashes)])?;
    push_words(out, &[bucket])
}

/// Appends the chain of a GNU table.
fn push_gnu_chain(alloc: Global, out: &mut Vec<u8>, hashes: &[u32]) -> Result<(), NoMemory>
    ensures { OnOk result (out.new.items ≡ out.old.items ++ words (chain_words hashes.now)) }
{
    let chain = chain_words(alloc, hashes)?;
    push_words(out, chain.as_slice())
}

/// The GNU table whose bucket holds `offset`, with these hashes from there on.
#[tactic(auto, unfolding(crate::specs::HashTables::gnu_words))]
fn gnu_words(alloc: Global, offset: u32, hashes: &[u32]) -> Result<Text, NoMemory>
    ensures { IfOk result (λ table. table ≡ gnu_words offset hashes.now) }
{
    let mut table = Vec::new(alloc);
    push_gnu_front(&mut table, offset, hashes)?;
    push_gnu_chain(alloc, &mut table, hashes)?;
    Ok(Text::from_vec(table))
}

/// The hashes of the symbols from `offset` on.
fn hashes_from(alloc: Global, offset: usize, symbols: &[Symbol]) -> Result<Vec<u32>, AllocError>
    ensures { IfOk result (λ hashes. hashes.items ≡ map (λ s. s.hash) (drop offset symbols.now)) }
{
    symbols.iter().skip(offset).map(|s| s.hash).collect(alloc)
}

/// The GNU table that lists the symbols from `offset` on.
#[tactic(auto, unfolding(crate::specs::HashTables::made_gnu_table))]
pub(crate) fn gnu_table(alloc: Global, offset: u32, symbols: &[Symbol]) -> Result<Text, NoMemory>
    ensures { IfOk result (λ table. table ≡ made_gnu_table offset symbols.now) }
{
    let hashes = hashes_from(alloc, offset as usize, symbols)?;
    gnu_words(alloc, offset, hashes.as_slice())
}
