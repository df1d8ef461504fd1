//! Laws of the definitions alone: each is the contract of a function that does nothing.

ghost use Rattle.std.specs.Prelude.{◌≡◌, ℕ, None, List};
ghost use Rattle.load_model.specs.Escaping.{AreBytes};
ghost use Rattle.load_model.specs.Faces.{face_of, first_flaw};
ghost use Rattle.load_model.specs.declared.faces.Face.{Face};
ghost use Rattle.elf_rewrite.specs.FittingFace.{FitsFace};
ghost use Rattle.elf_rewrite.specs.NewFile.{Fits, IsNewFile};
ghost use Rattle.elf_rewrite.specs.Pieces.{laid};
ghost use Rattle.elf_rewrite.specs.Rewriting.{rewriting};
ghost use Rattle.elf_rewrite.specs.Stops.{stop_of};
ghost use Rattle.elf_rewrite.specs.declared.change.Change.{Change};

/// A file with a face, and a change that fits it and that nothing stops: the new file has a face,
/// which is the old one with the texts of the change; old string places have their texts; memory is
/// the same but for what is written over it.
pub fn new_file()
    ensures { (b : List ℕ) (change : Change) → AreBytes b → first_flaw b ≡ None → Fits change b
        → stop_of b change ≡ None → IsNewFile b change (laid b (rewriting b change)) }
{}

/// A change that fits the face of a file fits the file.
pub fn face_fits()
    ensures { (change : Change) (face : Face) (b : List ℕ) → face ≡ face_of b
        → FitsFace change face → Fits change b }
{}
