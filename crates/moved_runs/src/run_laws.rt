//! The law of the same run, and that its premises can be met, each the contract of a function that
//! does nothing.

ghost use Rattle.std.specs.Prelude.{◌≡◌, ◌∷◌, [], ℕ, Bool, List, Result, codes};
ghost use Rattle.byte_view.specs.declared.flaws.Flaw.{Flaw};
ghost use Rattle.load_model.specs.LoadList.{Object};
ghost use Rattle.load_model.specs.Replays.{IsReplay};
ghost use Rattle.load_model.specs.World.{World};
ghost use Rattle.load_model.specs.declared.faces.Face.{Face};
ghost use Rattle.load_model.specs.declared.runs.Replay.{Replay};
ghost use Rattle.load_model.specs.declared.setting.Setting.{Setting};
ghost use Rattle.moved_runs.specs.Alike.{IsAlike};
ghost use Rattle.moved_runs.specs.Moved.{new_names};
ghost use Rattle.moved_runs.specs.Placed.{Item};
ghost use Rattle.moved_runs.specs.Places.{IsMoved};
ghost use Rattle.moved_runs.specs.SameRuns.{RunsSame};
ghost use Rattle.moved_runs.specs.SmallDirectory.{host_setting, is_bundled as is_small_bundled, name_of as small_name_of, objs_there as small_objs_there, read_directory, small_faces, small_host, small_items, small_replay, small_run};

/// A program that runs here runs the same at each place of a world that meets the premises, for any
/// reader of files, any two worlds and any two settings: its versions are met there, and the two
/// runs are the same place by place. Each opened name is to be the name of what it went to.
pub fn moved_program_runs_same()
    ensures { (read : List ℕ → Result Face Flaw) (setting setting_there : Setting)
        (here there : World) (path : List ℕ) (opens : List (List ℕ)) (faces : List Face)
        (replay : Replay) (place : List ℕ) (items : List Item) (name_of : ℕ → List ℕ)
        (is_bundled : ℕ → Bool) (program : List ℕ) (objs_there : List Object)
        → (plays : IsReplay read setting here faces path opens replay)
        → IsMoved read setting_there there place items name_of is_bundled program
        plays.loads.loaded objs_there
        → IsAlike faces replay plays.loads.loaded name_of is_bundled objs_there
        → new_names name_of plays.loads.loaded.log opens ≡ opens
        → RunsSame read setting_there there place name_of is_bundled program opens faces replay }
{}

/// The premises can be met: by a small directory with a program, a bundled library that the program
/// needs under another name and opens under its own, and a library of the host.
pub fn small_directory_meets()
    ensures moved { IsMoved read_directory host_setting small_host (codes "/apps") small_items
        small_name_of is_small_bundled (codes "AppRun") small_run small_objs_there }
    ensures alike { IsAlike small_faces small_replay small_run small_name_of is_small_bundled
        small_objs_there }
    ensures opens { new_names small_name_of small_run.log (codes "a" ∷ []) ≡ codes "a" ∷ [] }
{}
