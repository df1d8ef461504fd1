//! What stays in a file that keeps what another has, as laws of the definitions: each is the
//! contract of a function that does nothing.

ghost use Rattle.std.specs.Prelude.{◌≡◌, ◌≤◌, ◌<◌, ◌+◌, [], true, false, None, List, ℕ, length, take, drop};
ghost use Rattle.std.specs.List.{All, filter, list_all, list_any};
ghost use Rattle.byte_view.specs.Dynamic.{dynamic_entries, is_end};
ghost use Rattle.byte_view.specs.DynamicFlaws.{entry_flaw, missing_flaw};
ghost use Rattle.byte_view.specs.HeaderFlaws.{header_flaw};
ghost use Rattle.byte_view.specs.Headers.{headers, is_load, memory_end};
ghost use Rattle.byte_view.specs.Numbers.{number_at};
ghost use Rattle.byte_view.specs.declared.dynamic.Entry.{Entry};
ghost use Rattle.byte_view.specs.declared.segments.Segment.{Segment};
ghost use Rattle.load_model.specs.Faces.{face_of, first_flaw};
ghost use Rattle.load_model.specs.SymbolFlaws.{count_by, symbol_flaw_by, symbols_by};
ghost use Rattle.load_model.specs.VersionFlaws.{version_flaw};
ghost use Rattle.load_model.specs.VersionTables.{is_hidden, is_versioned, version_of};
ghost use Rattle.two_files.specs.Alike.{IsRewritten, KeepsSymbols, KeepsVersions, Wanted, face_with};
ghost use Rattle.two_files.specs.Entries.{Places, new_entries};
ghost use Rattle.two_files.specs.Kept.{KeepsBytes, Range, SameImage, misses};
ghost use Rattle.two_files.specs.NewHeaders.{AddsLoad};

/// A file that keeps what a file with a face has, but for some texts, has the face with these
/// texts.
pub fn new_face()
    ensures unflawed { (b c : List ℕ) (t : Wanted) → first_flaw b ≡ None → IsRewritten b c t
        → first_flaw c ≡ None }
    ensures face { (b c : List ℕ) (t : Wanted) → first_flaw b ≡ None → IsRewritten b c t → face_of c
        ≡ face_with b t }
{}

/// Symbols that stay where they were, over a string table that has grown, have no new flaw, the
/// same number and the same words.
pub fn symbols_kept()
    ensures unflawed { (b c : List ℕ) (bs cs : List Segment) (be ce : List Entry)
        → KeepsSymbols b c bs cs be ce
        → symbol_flaw_by b bs be ≡ None → symbol_flaw_by c cs ce ≡ None }
    ensures count { (b c : List ℕ) (bs cs : List Segment) (be ce : List Entry)
        → KeepsSymbols b c bs cs be ce
        → symbol_flaw_by b bs be ≡ None → count_by c cs ce ≡ count_by b bs be }
    ensures symbols { (b c : List ℕ) (bs cs : List Segment) (be ce : List Entry)
        → KeepsSymbols b c bs cs be ce
        → symbol_flaw_by b bs be ≡ None → symbols_by c cs ce ≡ symbols_by b bs be }
{}

/// Versions that stay where they were, but for the words of the files that they are needed of, have
/// no new flaw, and each symbol has the version that it had.
pub fn versions_kept()
    ensures unflawed { (count : ℕ) (b c : List ℕ) → KeepsVersions count b c → version_flaw count b
        ≡ None
        → version_flaw count c ≡ None }
    ensures versions { (count : ℕ) (b c : List ℕ) (i : ℕ) → KeepsVersions count b c
        → version_flaw count b ≡ None
        → i < count → version_of c i ≡ version_of b i }
    ensures hidden { (count : ℕ) (b c : List ℕ) (i : ℕ) → KeepsVersions count b c
        → version_flaw count b ≡ None
        → i < count → is_hidden c i ≡ is_hidden b i }
    ensures versioned { (count : ℕ) (b c : List ℕ) → KeepsVersions count b c → version_flaw count b
        ≡ None
        → is_versioned c ≡ is_versioned b }
{}

/// A LOAD above the others leaves their memory, but for what is written.
pub fn same_image()
    ensures { (b c : List ℕ) (written : List Range) (last : Segment) → header_flaw b ≡ None
        → KeepsBytes b c written → AddsLoad (headers b) (headers c) last
        → All (λ s. memory_end s ≤ last.vaddr) (filter is_load (headers b))
        → SameImage b c written }
{}

/// Where no header changes, memory stays but for what is written.
pub fn image_unmoved()
    ensures { (b c : List ℕ) (written : List Range) → header_flaw b ≡ None → KeepsBytes b c written
        → headers c ≡ headers b → SameImage b c written }
{}

/// Words and parts that nothing is written over read the same.
pub fn same_words()
    ensures words { (n at : ℕ) (b c : List ℕ) (written : List Range) → KeepsBytes b c written
        → at + n ≤ length b
        → list_all (λ r. misses at n r) written ≡ true → number_at n c at ≡ number_at n b at }
    ensures parts { (n at : ℕ) (b c : List ℕ) (written : List Range) → KeepsBytes b c written
        → at + n ≤ length b
        → list_all (λ r. misses at n r) written ≡ true → take n (drop at c) ≡ take n (drop at b) }
{}

/// New entries have no flaw that the old ones had not, and no end among them.
#[tactic(auto, using(crate::proofs::EntryFlaws::entries_fine, crate::proofs::EntryFlaws::tags_fine, crate::proofs::EntryFlaws::new_unended))]
pub fn entries_fine()
    ensures single { (w : Places) (xs : List Entry) → entry_flaw [] xs ≡ None
        → entry_flaw [] (new_entries w xs) ≡ None }
    ensures tags { (w : Places) (xs : List Entry) → missing_flaw xs ≡ None
        → missing_flaw (new_entries w xs) ≡ None }
    ensures unended { (w : Places) (xs : List Entry) → list_any is_end xs ≡ false
        → list_any is_end (new_entries w xs) ≡ false }
{}
