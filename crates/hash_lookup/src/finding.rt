//! What is kept of the symbols that are met along a chain.

ghost use Rattle.std.specs.Prelude.{◌≡◌, ◌<◌, ◌^◌, Some, length};
ghost use Rattle.hash_lookup.specs.Finding.{best_of, greater, lesser, nothing, the_one, wish_of, with_symbol};

use crate::candidates::Lookup;

/// The least index of those that are accepted whatever other symbols there are; and of those of
/// which exactly one is accepted, the least and the greatest.
///
/// So it does not matter in which order symbols are met, and how often.
#[derive(Clone, Copy)]
pub(crate) struct Found {
    sure: Option<u32>,
    least: Option<u32>,
    greatest: Option<u32>,
}

impl Found {
    /// Nothing so far.
    pub(crate) fn nothing() -> Found
        ensures { result ≡ nothing }
    {
        Found {
            sure: None,
            least: None,
            greatest: None,
        }
    }

    /// Notes the symbol of an index, if there is one.
    #[tactic(auto, unfolding(crate::specs::Finding::with_symbol, crate::specs::Finding::passes))]
    pub(crate) fn note(&mut self, lookup: &Lookup<'_>, index: usize)
        requires few { length lookup.now.syms.now < 2 ^ 32 }
        ensures { self.new ≡ with_symbol (wish_of lookup.now) lookup.now.syms.now self.old index }
    {
        let Some(s) = lookup.syms.get(index) else {
            return;
        };
        if lookup.is_sure(s) {
            self.sure = Some(lesser(self.sure, index as u32));
        }
        if lookup.is_spare(s) {
            self.least = Some(lesser(self.least, index as u32));
            self.greatest = Some(greater(self.greatest, index as u32));
        }
    }

    /// The offer, once all symbols were met that could be one.
    pub(crate) fn best(&self) -> Option<u32>
        ensures { result ≡ best_of self.now }
    {
        match self.sure {
            Some(index) => Some(index),
            None => the_one(self.least, self.greatest),
        }
    }
}

/// The lesser of an index and those before it.
fn lesser(so_far: Option<u32>, index: u32) -> u32
    ensures { lesser so_far index ≡ Some result }
{
    match so_far {
        Some(least) => least.min(index),
        None => index,
    }
}

/// The greater of an index and those before it.
fn greater(so_far: Option<u32>, index: u32) -> u32
    ensures { greater so_far index ≡ Some result }
{
    match so_far {
        Some(greatest) => greatest.max(index),
        None => index,
    }
}

/// The one index, where the least is the greatest.
fn the_one(least: Option<u32>, greatest: Option<u32>) -> Option<u32>
    ensures { result ≡ the_one least greatest }
{
    match (least, greatest) {
        (Some(least), Some(greatest)) if least == greatest => Some(least),
        _ => None,
    }
}
