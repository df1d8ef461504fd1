//! What holds of the splits that are recorded.

ghost use Rattle.std.specs.Prelude.{◌≡◌, ℕ, List, Ok, All, IsSome};
ghost use Rattle.load_model.specs.Runs.{IsRunOver};
ghost use Rattle.load_model.specs.declared.faces.Face.{Face};
ghost use Rattle.load_model.specs.declared.runs.Run.{Run};
ghost use Rattle.lib_closure.specs.Splits.{split_of};
ghost use Rattle.lib_closure.specs.declared.splits.Split.{Split};
ghost use Rattle.host_list.specs.Recording.{AreClosed, program_interp};

/// The host libraries of a split have distinct names and need one another alone, and the
/// interpreters of its programs read as paths.
pub fn splits_are_recordable()
    ensures closed { (faces : List Face) (runs : List Run) (names : List (List ℕ)) (split : Split)
        → All (IsRunOver faces) runs → split_of faces runs names ≡ Ok split
        → AreClosed faces split.hosts }
    ensures interps { (faces : List Face) (runs : List Run) (names : List (List ℕ)) (split : Split)
        → All (IsRunOver faces) runs → split_of faces runs names ≡ Ok split
        → All (λ (run : Run). IsSome (program_interp faces run)) runs }
{}
