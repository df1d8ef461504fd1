//! Laws of the text.

ghost use Rattle.std.specs.Prelude.{◌≡◌, List, ℕ};
ghost use Rattle.host_record.specs.Canonical.{IsCanonical, IsOfBytes};
ghost use Rattle.host_record.specs.Grammar.{Refuses, Says, record_text};
ghost use Rattle.host_record.specs.declared.records.Record.{Record as Told};

/// A text says at most one record, has at most one first refused line, and not both.
pub fn one_reading()
    ensures says { (text : List ℕ) (r s : Told) → Says text r → Says text s → r ≡ s }
    ensures refuses { (text : List ℕ) (m n : ℕ) → Refuses text m → Refuses text n → m ≡ n }
    ensures either { (text : List ℕ) (r : Told) (n : ℕ) → Says text r → Refuses text n → ⊥ }
{}

/// The text of a canonical record says that record.
pub fn written_is_read()
    ensures { (r : Told) → IsOfBytes r → IsCanonical r → Says (record_text r) r }
{}
