//! What holds of the loaded segments: of those that are named as flaws, and of every file whose
//! headers have no flaw.
//!
//! System V gABI, Program Header. The definitions are in `specs/LoadPairs.antt` and
//! `specs/Sound.antt` of `byte_view`.

ghost use Rattle.std.specs.Prelude.{◌≡◌, ◌≤◌, ℕ, List, None, length};
ghost use Rattle.std.specs.List.{filter};
ghost use Rattle.byte_view.specs.HeaderFlaws.{falling, header_flaw, overlapping};
ghost use Rattle.byte_view.specs.Headers.{headers, is_load, memory_end};
ghost use Rattle.byte_view.specs.LoadPairs.{NamesFirstBelow};
ghost use Rattle.byte_view.specs.Memory.{holds};
ghost use Rattle.byte_view.specs.Sound.{AreApart};
ghost use Rattle.byte_view.specs.declared.flaws.TheConstants.{SEGMENT_ORDER, SEGMENT_OVERLAP};
ghost use Rattle.byte_view.specs.declared.segments.Segment.{Segment};

/// The loaded segments are in ascending order, and none begins below the end of one before it.
pub fn loads_are_apart()
    ensures { (file : List ℕ) → header_flaw file ≡ None → AreApart (filter is_load (headers file)) }
{}

/// At most one loaded segment holds an address.
pub fn at_most_one_load_holds()
    ensures { (file : List ℕ) → header_flaw file ≡ None →
        (addr : ℕ) → length (filter (holds addr) (headers file)) ≤ 1 }
{}

/// SegmentOrder is named exactly at the first loaded segment that begins below the beginning of the
/// loaded segment before it, and SegmentOverlap at the first that begins below that one's end.
pub fn first_below_is_named()
    ensures order { (segments : List Segment) →
        NamesFirstBelow (λ s. s.vaddr) SEGMENT_ORDER segments (falling segments) }
    ensures overlap { (segments : List Segment) →
        NamesFirstBelow memory_end SEGMENT_OVERLAP segments (overlapping segments) }
{}
