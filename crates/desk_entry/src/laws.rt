//! Laws of the definitions.

ghost use Rattle.std.specs.Prelude.{◌≡◌, List, ℕ, Result};
ghost use Rattle.desk_entry.specs.Reading.{Reads};
ghost use Rattle.desk_entry.specs.declared.entries.Entries.{Entries as Told};
ghost use Rattle.desk_entry.specs.declared.reading.DeskFault.{DeskFault as Fault};

/// A text is read as one thing: its entries, or its first fault.
pub fn one_reading()
    ensures { (text : List ℕ) (a b : Result Told Fault) → Reads text a → Reads text b → a ≡ b }
{}
