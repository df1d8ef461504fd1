//! What holds of every flaw that a file can have.
//!
//! The first flaw is defined in `specs/Faces.antt`, the names in `specs/FlawNames.antt` of
//! `byte_view`.

ghost use Rattle.std.specs.Prelude.{ℕ, List};
ghost use Rattle.byte_view.specs.FlawNames.{IsNamedFlaw};
ghost use Rattle.load_model.specs.Faces.{first_flaw};

/// Each flaw that a file can have has a name.
pub fn each_flaw_is_named()
    ensures { (file : List ℕ) → IsNamedFlaw (first_flaw file) }
{}
