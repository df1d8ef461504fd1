//! Laws of the definitions alone: each is the contract of a function that does nothing.

ghost use Rattle.std.specs.Prelude.{◌≡◌, List, None, true, ℕ};
ghost use Rattle.elf_rewrite.specs.NewTexts.{is_done};
ghost use Rattle.elf_rewrite.specs.Pieces.{laid};
ghost use Rattle.elf_rewrite.specs.Rewriting.{rewriting};
ghost use Rattle.elf_rewrite.specs.declared.change.Change.{Change};
ghost use Rattle.load_model.specs.Faces.{face_of};
ghost use Rattle.load_model.specs.declared.faces.Face.{Face};
ghost use Rattle.object_changes.specs.Unchanged.{is_unchanged};

/// A change that leaves the face of a file as it is leaves the file as it is: nothing is to do.
pub fn unchanged_is_done()
    ensures done { (b : List ℕ) (face : Face) (change : Change) → face ≡ face_of b
        → is_unchanged face change ≡ true → is_done b change ≡ true }
    ensures same { (b : List ℕ) (face : Face) (change : Change) → face ≡ face_of b
        → is_unchanged face change ≡ true → laid b (rewriting b change) ≡ b }
{}
