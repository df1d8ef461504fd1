//! What holds of the places of records.

ghost use Rattle.std.specs.Prelude.{◌≡◌, ◌+◌, ℕ, List, map};
ghost use Rattle.std.specs.List.{range_with_len, sum_by};
ghost use Rattle.load_model.specs.VersionTables.{record_place};
ghost use Rattle.version_tables.specs.Chained.{AreChained};

/// The places of a table's records are the one list in which each record lies where the one before
/// it says.
pub fn records_follow_one_another()
    ensures chained { (next : ℕ → ℕ) (first n : ℕ) → AreChained next first n (map (record_place next
        first) (range_with_len 0 n)) }
    ensures only { (next : ℕ → ℕ) (first n : ℕ) (places : List ℕ) → AreChained next first n places →
        places ≡ map (record_place next first) (range_with_len 0 n) }
{}

/// A record lies behind the first by the sum of the `next` words of those before it.
pub fn records_lie_at_sums()
    ensures { (next : ℕ → ℕ) (first k : ℕ)
        → record_place next first k
        ≡ first + sum_by next (map (record_place next first) (range_with_len 0 k)) }
{}
