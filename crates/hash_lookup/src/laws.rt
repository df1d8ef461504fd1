//! Laws of chains, each the contract of a function that does nothing.

ghost use Rattle.std.specs.Prelude.{◌≡◌, ◌∷◌, [], codes};
ghost use Rattle.hash_lookup.specs.Chains.{gnu_chain, sysv_chain};
ghost use Rattle.load_model.specs.Hashes.{gnu_hash, sysv_hash};

/// A bucket of three symbols has a chain of these three in either table, so that no look-up there
/// compares a fourth.
pub fn bucket_of_three()
    ensures gnu { gnu_chain (record {
      offset = 1;
      shift = 6;
      bloom = 0 ∷ [];
      buckets = 1 ∷ [];
      words = 2 ∷ 4 ∷ 7 ∷ 8 ∷ [];
    }) (gnu_hash (codes "puts")) ≡ (1, 2) ∷ (2, 4) ∷ (3, 7) ∷ [] }
    ensures sysv { sysv_chain (record { buckets = 3 ∷ []; chains = 0 ∷ 0 ∷ 1 ∷ 2 ∷ 1 ∷ [] })
        (sysv_hash (codes "puts")) ≡ 3 ∷ 2 ∷ 1 ∷ [] }
{}
