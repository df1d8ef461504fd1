//! Laws of the runs and the files of a build, each the contract of a function that does nothing.

ghost use Rattle.std.specs.Prelude.{◌++◌, ℕ, List, All, map};
ghost use Rattle.std.specs.List.{Contains};
ghost use Rattle.appdir_build.specs.Objects.{first_unwritten, lib_objects, new_bytes_of, program_objects};
ghost use Rattle.app_config.specs.declared.config.Config.{Config};
ghost use Rattle.build_laws.specs.BuiltRuns.{IsRunIn};
ghost use Rattle.build_plan.specs.Building.{Building};
ghost use Rattle.build_runs.specs.BuildRuns.{AreRuns};
ghost use Rattle.build_runs.specs.declared.programs.Start.{Start};
ghost use Rattle.elf_rewrite.specs.Patched.{range_of};
ghost use Rattle.elf_rewrite.specs.Rewriting.{rewriting};
ghost use Rattle.elf_rewrite.specs.declared.change.Change.{Change};
ghost use Rattle.lib_closure.specs.declared.splits.Member.{Member};
ghost use Rattle.load_model.specs.Runs.{IsRunOver};
ghost use Rattle.load_model.specs.World.{World};
ghost use Rattle.load_model.specs.declared.faces.Face.{Face};
ghost use Rattle.load_model.specs.declared.runs.Run.{Run};
ghost use Rattle.load_model.specs.declared.setting.Setting.{Setting};
ghost use Rattle.ports.specs.Reading.{bytes_at};
ghost use Rattle.two_files.specs.Kept.{SameImage};
ghost use Rattle.std.specs.Prelude.{◌≡◌, None};

/// The numbers of each run of a build are in range.
pub fn runs_are_in_range()
    ensures { (setting : Setting) (world : World) (programs : List Start) (faces : List Face)
        (runs : List Run)
        → AreRuns setting world programs faces runs → All (IsRunOver faces) runs }
{}

/// Each program and bundled library of a build is written with the memory of its source, but for
/// what its change writes over it.
pub fn built_files_keep_memory()
    ensures { (world : World) (config : Config) (b : Building) (number : ℕ) (start : Start)
        (run : Run) (path : List ℕ) (object : Member × Change)
        → IsRunIn world config b number start run path
        → first_unwritten world b ≡ None
        → Contains (program_objects b ++ lib_objects b) object
        → SameImage (bytes_at world object.0.path) (new_bytes_of world object)
        (map range_of (rewriting (bytes_at world object.0.path) object.1).patches) }
{}
