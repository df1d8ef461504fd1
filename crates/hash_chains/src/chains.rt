//! The chains of the hash table, and how deep each symbol lies in its own.
//!
//! System V gABI, Hash Table; `specs/Depths.antt` says what is kept. Chains may share their ends:
//! each symbol is met once.

ghost use Rattle.std.specs.Prelude.{◌≡◌, ◌≢◌, ◌≤◌, ◌<◌, ◌+◌, ◌==◌, ℕ, Ok, true, false, IfOk, MatchOption, length, slice_index};
ghost use Rattle.std.specs.List.{list_all};
ghost use Rattle.load_model.specs.SysvTable.{ends_in, is_in_chain, is_link};
ghost use Rattle.hash_chains.specs.Depths.{AreHeadsKnown, AreMeasured, HasNoted, IsReady, IsWay, KeepsKnown, Knows, Reaches};

use std::alloc::{AllocError, Global};

/// For each symbol the next of its chain; and of each that was met its depth, how many symbols its
/// chain has from it on, and one farther on in the chain. 0 is no symbol, and the depth of one that
/// was not met.
#[derive(Drop)]
pub struct Chains {
    pub next: Vec<u32>,
    pub depths: Vec<usize>,
    pub jumps: Vec<u32>,
}

/// The symbols that are met from one on, and the first behind them whose depth is known.
#[derive(Drop)]
struct Way {
    symbols: Vec<u32>,
    end: u32,
}

/// The word at a place, or 0 where there is none.
fn word_of(words: &[u32], at: u32) -> u32
    ensures { result ≡ slice_index words.now at }
{
    words.get(at as usize).copied().unwrap_or(0)
}

/// The depth at a place, or 0 where there is none.
fn depth_of(depths: &[usize], at: usize) -> usize
    ensures { result ≡ slice_index depths.now at }
{
    depths.get(at).copied().unwrap_or(0)
}

impl Chains {
    /// The chains of these words, of which no symbol was met.
    pub fn new(alloc: Global, next: Vec<u32>) -> Result<Chains, AllocError>
        ensures words { IfOk result (λ c. c.next.items ≡ next.items) }
        ensures depths { IfOk result (λ c. AreMeasured c) }
    {
        let depths = vec![in alloc; 0; next.len()]?;
        let jumps = vec![in alloc; 0; next.len()]?;
        Ok(Chains {
            next,
            depths,
            jumps,
        })
    }

    /// How many symbols there are.
    pub fn len(&self) -> usize
        ensures { result ≡ length self.now.next.items }
    {
        self.next.len()
    }

    /// Whether the depth of a symbol is known.
    #[tactic(auto, using(crate::proofs::Depths::known_zero, crate::proofs::Depths::known_noted))]
    fn knows(&self, at: u32) -> bool
        requires { AreMeasured self.now }
        ensures yes { result ≡ true → Knows self.now at }
        ensures no { result ≡ false → at ≢ 0 }
    {
        at == 0 || depth_of(&self.depths, at as usize) != 0
    }

    /// The way from a symbol to the first that is known, if there is one before as many symbols as
    /// there are.
    #[tactic(auto, using(crate::proofs::Depths::way_none, crate::proofs::Depths::way_endless))]
    fn way(&self, alloc: Global, first: u32) -> Result<Option<Way>, AllocError>
        requires depths { AreMeasured self.now }
        requires links { list_all (λ w. is_link (length self.now.next.items) w) self.now.next.items
            ≡ true }
        requires first { is_link (length self.now.next.items) first ≡ true }
        ensures { IfOk result
            (λ found. MatchOption found
            (ends_in (length self.now.next.items) self.now.next.items first ≡ false)
            (λ w. IsWay self.now.next.items first w.symbols.items w.end × Knows self.now w.end
            × (length w.symbols.items ≤ length self.now.next.items))) }
    {
        let mut symbols = Vec::new(alloc);
        let mut end = first;
        'walk: while !self.knows(end) {
            if symbols.len() == self.next.len() {
                return Ok(None);
            }
            symbols.push(end)?;
            end = word_of(&self.next, end);
        }
        Ok(Some(Way { symbols, end }))
    }

    /// A symbol that the next one of a symbol reaches, to keep of it: so that a way of n symbols
    /// has steps in the order of log n.
    #[tactic(auto, using(crate::proofs::Depths::jump_known, crate::proofs::Depths::jump_reached, crate::proofs::Depths::reach_here, crate::proofs::Depths::jump_twice, crate::proofs::Depths::jump_shallow))]
    fn jump_from(&self, next: u32) -> u32
        requires depths { AreMeasured self.now }
        requires known { Knows self.now next }
        ensures known { Knows self.now result }
        ensures reached { Reaches self.now.next.items next result }
    {
        let jump = word_of(&self.jumps, next);
        let farther = word_of(&self.jumps, jump);
        let near = depth_of(&self.depths, next as usize) - depth_of(&self.depths, jump as usize);
        let far = depth_of(&self.depths, jump as usize) - depth_of(&self.depths, farther as usize);
        if near == far { farther } else { next }
    }

    /// Notes a symbol whose next one is known.
    fn note(&mut self, at: u32)
        requires depths { AreMeasured self.old }
        requires ready { IsReady self.old at }
        ensures { HasNoted self.old self.new at }
    {
        let next = word_of(&self.next, at);
        let jump = self.jump_from(next);
        let depth = depth_of(&self.depths, next as usize) + 1;
        self.depths[at as usize] = depth;
        self.jumps[at as usize] = jump;
    }

    /// Notes the symbols of a way, the last one first.
    fn note_all(&mut self, way: Way)
        requires depths { AreMeasured self.old }
        requires way { (first : ℕ) × IsWay self.old.next.items first way.symbols.items way.end }
        requires known { Knows self.old way.end }
        requires few { slice_index self.old.depths.items way.end + length way.symbols.items ≤ length
            self.old.next.items }
        ensures depths { AreMeasured self.new }
        ensures words { self.new.next ≡ self.old.next }
        ensures known { (first : ℕ) → IsWay self.old.next.items first way.symbols.items way.end →
            Knows self.new first }
        ensures kept { KeepsKnown self.old self.new }
    {
        let mut symbols = way.symbols;
        'note: while let Some(symbol) = symbols.pop() {
            self.note(symbol);
        }
    }

    /// Whether the chain from a symbol on ends. If so, its symbols are noted.
    #[tactic(auto, using(crate::proofs::Depths::way_too_long, crate::proofs::Depths::way_fits))]
    fn measure(&mut self, alloc: Global, first: u32) -> Result<bool, AllocError>
        requires depths { AreMeasured self.old }
        requires links { list_all (λ w. is_link (length self.old.next.items) w) self.old.next.items
            ≡ true }
        requires first { is_link (length self.old.next.items) first ≡ true }
        ensures depths { AreMeasured self.new }
        ensures words { self.new.next ≡ self.old.next }
        ensures ends { IfOk result (λ ends. ends ≡ ends_in (length self.old.next.items)
            self.old.next.items first) }
        ensures known { result ≡ Ok true → Knows self.new first }
        ensures kept { KeepsKnown self.old self.new }
    {
        let Some(way) = self.way(alloc, first)? else {
            return Ok(false);
        };
        let room = self.next.len() - way.symbols.len();
        if room < depth_of(&self.depths, way.end as usize) {
            return Ok(false);
        }
        self.note_all(way);
        Ok(true)
    }

    /// The same of the chains from all of these symbols on.
    #[tactic(auto, using(crate::proofs::Depths::all_links_at))]
    pub fn measure_all(&mut self, alloc: Global, firsts: &[u32]) -> Result<bool, AllocError>
        requires depths { AreMeasured self.old }
        requires links { list_all (λ w. is_link (length self.old.next.items) w) self.old.next.items
            ≡ true }
        requires firsts { list_all (λ w. is_link (length self.old.next.items) w) firsts.now ≡ true }
        ensures words { self.new.next ≡ self.old.next }
        ensures ends { IfOk result (λ ends. ends ≡ list_all (λ at. ends_in (length
            self.old.next.items) self.old.next.items at) firsts.now) }
        ensures known { result ≡ Ok true → AreHeadsKnown self.new firsts.now }
    {
        for first in firsts {
            if !self.measure(alloc, *first)? {
                return Ok(false);
            }
        }
        Ok(true)
    }

    /// A symbol farther on in the chain, which has this depth or more.
    #[tactic(auto, using(crate::proofs::Depths::jump_known, crate::proofs::Depths::jump_reached, crate::proofs::Depths::jump_less, crate::proofs::Depths::next_reached, crate::proofs::Depths::next_less))]
    fn nearer(&self, at: u32, depth: usize) -> u32
        requires depths { AreMeasured self.now }
        requires known { Knows self.now at }
        requires deeper { depth < slice_index self.now.depths.items at }
        ensures known { Knows self.now result }
        ensures reached { Reaches self.now.next.items at result }
        ensures less { slice_index self.now.depths.items result
            < slice_index self.now.depths.items at }
        ensures enough { depth ≤ slice_index self.now.depths.items result }
    {
        let jump = word_of(&self.jumps, at);
        if depth_of(&self.depths, jump as usize) < depth {
            word_of(&self.next, at)
        } else {
            jump
        }
    }

    /// The symbol of this depth in the chain from another on, if that is as deep.
    #[tactic(auto, using(crate::proofs::Depths::reach_here, crate::proofs::Depths::reach_on))]
    fn at_depth(&self, first: u32, depth: usize) -> u32
        requires depths { AreMeasured self.now }
        requires known { Knows self.now first }
        ensures known { Knows self.now result }
        ensures reached { Reaches self.now.next.items first result }
        ensures low { slice_index self.now.depths.items result ≤ depth }
        ensures enough { depth ≤ slice_index self.now.depths.items first → depth ≤ slice_index
            self.now.depths.items result }
    {
        let mut at = first;
        'descend: while depth_of(&self.depths, at as usize) > depth {
            at = self.nearer(at, depth);
        }
        at
    }

    /// Whether a symbol stands in the chain from another on.
    #[tactic(auto, using(crate::proofs::Depths::stands_not))]
    pub fn stands(&self, first: u32, symbol: usize) -> bool
        requires depths { AreMeasured self.now }
        requires known { Knows self.now first }
        ensures { result ≡ is_in_chain self.now.next.items first symbol }
    {
        let depth = depth_of(&self.depths, symbol);
        if depth == 0 {
            return false;
        }
        self.at_depth(first, depth) as usize == symbol
    }
}
