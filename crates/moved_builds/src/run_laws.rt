//! The law of the same run of each program of a build, the contract of a function that does nothing.

ghost use Rattle.std.specs.Prelude.{ℕ, List};
ghost use Rattle.app_config.specs.declared.config.Config.{Config};
ghost use Rattle.appdir_build.specs.Outcome.{IsPackage, Package};
ghost use Rattle.build_runs.specs.declared.programs.Start.{Start};
ghost use Rattle.build_texts.specs.Texts.{replay_in};
ghost use Rattle.load_model.specs.Faces.{face_or_flaw};
ghost use Rattle.load_model.specs.World.{World};
ghost use Rattle.load_model.specs.declared.runs.Run.{Run};
ghost use Rattle.load_model.specs.declared.setting.Setting.{Setting};
ghost use Rattle.moved_runs.specs.SameRuns.{RunsSame};
ghost use Rattle.build_laws.specs.Sources.{IsSource};
ghost use Rattle.moved_builds.specs.Homes.{IsHome};
ghost use Rattle.build_laws.specs.Renaming.{IsProgramOf, is_bundled_in, name_in};

/// Where a configuration comes to a directory, and this lies at a place of a world that meets the
/// premises, each of its programs runs there as it does here: its versions are met, and the two runs
/// are the same place by place. The two worlds and settings may be any.
pub fn built_programs_run_same()
    ensures { (world there : World) (config : Config) (made : Package) (setting : Setting)
        (place : List ℕ) (number : ℕ) (start : Start) (run : Run) (path : List ℕ)
        (ready : IsPackage world config made)
        → IsSource world config
        → IsHome there config ready.building setting place made.files
        → IsProgramOf config ready.building number start run path
        → RunsSame face_or_flaw setting there place (name_in ready.building run)
        (is_bundled_in ready.building run) path start.opens ready.building.faces
        (replay_in ready.building.faces run) }
{}
