//! A law of the definitions alone: the contract of a function that does nothing.

ghost use Rattle.std.specs.Prelude.{◌≡◌, ℕ, List, Ok};
ghost use Rattle.elf_rewrite.specs.FittingFace.{FitsFace};
ghost use Rattle.elf_rewrite.specs.NewFile.{IsNewFile, wanted_of};
ghost use Rattle.elf_rewrite.specs.declared.change.Change.{Change};
ghost use Rattle.load_model.specs.Escaping.{AreBytes};
ghost use Rattle.load_model.specs.Faces.{face_or_flaw};
ghost use Rattle.load_model.specs.declared.faces.Face.{Face};
ghost use Rattle.object_rewriting.specs.Rewritten.{rewritten};
ghost use Rattle.two_files.specs.Alike.{face_with};

/// A file with a face, and a change that fits it: what it is rewritten to has a face, which is the
/// old one with the texts of the change; old string places have their texts; memory is the same but
/// for what is written over it.
pub fn rewritten_has_face()
    ensures face { (b c : List ℕ) (change : Change) (face : Face) → AreBytes b
        → face_or_flaw b ≡ Ok face → FitsFace change face → rewritten b change ≡ Ok c
        → face_or_flaw c ≡ Ok (face_with b (wanted_of b change)) }
    ensures new_file { (b c : List ℕ) (change : Change) (face : Face) → AreBytes b
        → face_or_flaw b ≡ Ok face → FitsFace change face → rewritten b change ≡ Ok c
        → IsNewFile b change c }
{}
