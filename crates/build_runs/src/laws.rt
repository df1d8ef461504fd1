//! Laws of the runs of a build, each the contract of a function that does nothing.

ghost use Rattle.std.specs.Prelude.{◌≡◌, ℕ, List, Some, slice_get};
ghost use Rattle.build_runs.specs.BuildRuns.{AreRuns, IsFileIn};
ghost use Rattle.build_runs.specs.FirstStops.{IsFirstStop};
ghost use Rattle.build_runs.specs.declared.programs.Start.{Start};
ghost use Rattle.load_model.specs.World.{World};
ghost use Rattle.load_model.specs.declared.faces.Face.{Face};
ghost use Rattle.load_model.specs.declared.refusals.LoadRefusal.{LoadRefusal};
ghost use Rattle.load_model.specs.declared.runs.Obj.{Obj};
ghost use Rattle.load_model.specs.declared.runs.Run.{Run};
ghost use Rattle.load_model.specs.declared.setting.Setting.{Setting};

/// In a world programs have at most one table of faces, and at most one list of runs.
pub fn at_most_one_build()
    ensures { (setting : Setting) (world : World) (programs : List Start)
        (faces others : List Face) (runs other_runs : List Run)
        → AreRuns setting world programs faces runs
        → AreRuns setting world programs others other_runs
        → (faces ≡ others) × (runs ≡ other_runs) }
{}

/// Programs that have runs have no stop.
pub fn runs_or_a_stop()
    ensures { (setting : Setting) (world : World) (programs : List Start) (faces : List Face)
        (runs : List Run) (refusal : LoadRefusal)
        → AreRuns setting world programs faces runs
        → IsFirstStop setting world programs refusal
        → ⊥ }
{}

/// Each object of the runs is a file of the world.
pub fn objects_are_files()
    ensures { (setting : Setting) (world : World) (programs : List Start) (faces : List Face)
        (runs : List Run) (k j : ℕ) (run : Run) (x : Obj)
        → AreRuns setting world programs faces runs
        → slice_get runs k ≡ Some run
        → slice_get run.objs j ≡ Some x
        → IsFileIn world faces x }
{}
