//! What holds of each split, as `specs/SplitLaws.antt` says.

ghost use Rattle.std.specs.Prelude.{◌≡◌, ℕ, List, Ok, All};
ghost use Rattle.load_model.specs.Runs.{IsRunOver};
ghost use Rattle.load_model.specs.declared.faces.Face.{Face};
ghost use Rattle.load_model.specs.declared.runs.Run.{Run};
ghost use Rattle.lib_closure.specs.SplitLaws.{HasAllObjects, HasClosedHosts, HasDistinctIds, StandsInRuns};
ghost use Rattle.lib_closure.specs.Splits.{split_of};
ghost use Rattle.lib_closure.specs.declared.splits.Split.{Split};

/// No library stands twice, none is a program, and none is both bundled and of the host; each
/// member is an object of a run, and host libraries are on the list by their keys.
pub fn splits_have_parts()
    ensures ids { (faces : List Face) (runs : List Run) (names : List (List ℕ)) (split : Split)
        → split_of faces runs names ≡ Ok split → HasDistinctIds split }
    ensures members { (faces : List Face) (runs : List Run) (names : List (List ℕ)) (split : Split)
        → split_of faces runs names ≡ Ok split → StandsInRuns faces runs names split }
{}

/// Each object of the runs is a program or a library, whatever is asked for is a library, and the
/// host libraries need one another alone.
pub fn splits_have_objects()
    ensures objects { (faces : List Face) (runs : List Run) (names : List (List ℕ)) (split : Split)
        → All (IsRunOver faces) runs → split_of faces runs names ≡ Ok split
        → HasAllObjects faces runs split }
    ensures hosts { (faces : List Face) (runs : List Run) (names : List (List ℕ)) (split : Split)
        → All (IsRunOver faces) runs → split_of faces runs names ≡ Ok split
        → HasClosedHosts faces split }
{}
