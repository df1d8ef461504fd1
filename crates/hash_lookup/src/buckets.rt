//! The buckets of a hash table.

ghost use Rattle.std.specs.Prelude.{◌≡◌};
ghost use Rattle.hash_lookup.specs.Chains.{first_of};

/// The first symbol of a hash's bucket, 0 where there is none.
#[tactic(auto, unfolding(crate::specs::Chains::first_of))]
pub(crate) fn first_of(buckets: &[u32], hash: u32) -> u32
    ensures { result ≡ first_of buckets.now hash }
{
    if buckets.is_empty() {
        return 0;
    }
    buckets[hash as usize % buckets.len()]
}
