//! Laws of the names of a build, each the contract of a function that does nothing.

ghost use Rattle.std.specs.Prelude.{◌<◌, ℕ, List, length};
ghost use Rattle.app_config.specs.declared.config.Config.{Config};
ghost use Rattle.build_plan.specs.Building.{Building};
ghost use Rattle.build_runs.specs.declared.programs.Start.{Start};
ghost use Rattle.load_model.specs.World.{World};
ghost use Rattle.load_model.specs.declared.runs.Run.{Run};
ghost use Rattle.moved_runs.specs.Moved.{AreDistinctNames, NeverProgram};
ghost use Rattle.build_laws.specs.BuiltRuns.{IsRunIn};
ghost use Rattle.build_laws.specs.Renaming.{name_in};
ghost use Rattle.path_text.specs.FileName.{IsFileName};

/// No request of a program of a build goes to the program. The names of the other objects are
/// distinct file names.
pub fn names_of_objects()
    ensures never { (world : World) (config : Config) (b : Building) (number : ℕ) (start : Start)
        (run : Run) (path : List ℕ) (at : IsRunIn world config b number start run path)
        → NeverProgram at.plays.loads.loaded.log }
    ensures files { (world : World) (config : Config) (b : Building) (number : ℕ) (start : Start)
        (run : Run) (path : List ℕ) (at : IsRunIn world config b number start run path) (j : ℕ)
        → 0 < j → j < length at.plays.loads.loaded.objs → IsFileName (name_in b run j) }
    ensures distinct { (world : World) (config : Config) (b : Building) (number : ℕ)
        (start : Start) (run : Run) (path : List ℕ)
        (at : IsRunIn world config b number start run path)
        → AreDistinctNames (name_in b run) (length at.plays.loads.loaded.objs) }
{}
