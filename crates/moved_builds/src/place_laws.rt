//! Laws of the programs of a build at a place of another world, each the contract of a function that
//! does nothing.

ghost use Rattle.std.specs.Prelude.{◌≡◌, ◌<◌, ℕ, List, Some, false, length, slice_get, true};
ghost use Rattle.std.specs.List.{Contains};
ghost use Rattle.app_config.specs.declared.config.Config.{Config};
ghost use Rattle.appdir_build.specs.Outcome.{IsPackage, Package};
ghost use Rattle.build_runs.specs.declared.programs.Start.{Start};
ghost use Rattle.build_texts.specs.Texts.{record_in};
ghost use Rattle.host_record.specs.Said.{lib_names};
ghost use Rattle.load_model.specs.Candidates.{IsOpenedIn};
ghost use Rattle.load_model.specs.Faces.{face_or_flaw};
ghost use Rattle.load_model.specs.Joined.{joined};
ghost use Rattle.load_model.specs.LoadList.{Loaded, Object};
ghost use Rattle.load_model.specs.Loads.{IsLoadList};
ghost use Rattle.host_list.specs.Recording.{program_interp};
ghost use Rattle.listed_runs.specs.Fitting.{is_on_list};
ghost use Rattle.load_model.specs.World.{World, file_at};
ghost use Rattle.load_model.specs.declared.world.WorldFile.{WorldFile};
ghost use Rattle.path_text.specs.Path.{base_of};
ghost use Rattle.load_model.specs.declared.runs.Obj.{Obj};
ghost use Rattle.load_model.specs.declared.runs.Run.{Run};
ghost use Rattle.load_model.specs.declared.setting.Setting.{Setting};
ghost use Rattle.moved_runs.specs.OpenedThere.{MayBeOpened};
ghost use Rattle.moved_runs.specs.Places.{IsMoved};
ghost use Rattle.build_laws.specs.Sources.{IsSource};
ghost use Rattle.moved_builds.specs.Homes.{IsHome};
ghost use Rattle.build_laws.specs.Renaming.{IsProgramOf, as_items, is_bundled_in, name_in};
ghost use Rattle.build_laws.specs.BuiltRuns.{IsRunIn};

/// Where a configuration comes to a directory, and this lies at a place that meets the premises, its
/// programs are moved programs there.
pub fn built_programs_are_moved()
    ensures { (world there : World) (config : Config) (made : Package) (setting : Setting)
        (place : List ℕ) (number : ℕ) (start : Start) (run : Run) (path : List ℕ)
        (ready : IsPackage world config made)
        → IsSource world config
        → IsHome there config ready.building setting place made.files
        → IsProgramOf config ready.building number start run path
        → (at : IsRunIn world config ready.building number start run path)
        × (objs_there : List Object)
        × IsMoved face_or_flaw setting there place (as_items made.files)
        (name_in ready.building run) (is_bundled_in ready.building run) path
        at.plays.loads.loaded objs_there }
{}

/// Each program of a build loads there, with the names that it opens, and opens only its own file,
/// those of bundled libraries in their folder, and for names of the host's record files of listed
/// directories.
pub fn built_programs_load_there()
    ensures loads { (world there : World) (config : Config) (made : Package) (setting : Setting)
        (place : List ℕ) (number : ℕ) (start : Start) (run : Run) (path : List ℕ)
        (ready : IsPackage world config made)
        → IsSource world config
        → IsHome there config ready.building setting place made.files
        → IsProgramOf config ready.building number start run path
        → (loaded : Loaded) × (ends : List Loaded)
        × IsLoadList face_or_flaw setting there (joined place path) start.opens loaded ends }
    ensures opens { (world there : World) (config : Config) (made : Package) (setting : Setting)
        (place : List ℕ) (number : ℕ) (start : Start) (run : Run) (path : List ℕ)
        (ready : IsPackage world config made)
        → IsSource world config
        → IsHome there config ready.building setting place made.files
        → IsProgramOf config ready.building number start run path
        → (loaded : Loaded) (ends : List Loaded) (opened : List ℕ)
        → IsLoadList face_or_flaw setting there (joined place path) start.opens loaded ends
        → IsOpenedIn face_or_flaw setting there (joined place path) loaded opened
        → MayBeOpened face_or_flaw setting there place (name_in ready.building run)
        (is_bundled_in ready.building run) (length run.objs) path opened }
    ensures recorded { (world : World) (config : Config) (made : Package) (number : ℕ)
        (start : Start) (run : Run) (path : List ℕ) (j : ℕ) (x : Obj)
        (ready : IsPackage world config made)
        → IsSource world config
        → IsProgramOf config ready.building number start run path
        → 0 < j → slice_get run.objs j ≡ Some x → is_bundled_in ready.building run j ≡ false
        → Contains (lib_names (record_in ready.building).libs)
        (name_in ready.building run j) }
{}

/// The interpreter of each program of a build has a last part on the host list, and is a file there.
pub fn built_interpreters_are_there()
    ensures { (world there : World) (config : Config) (made : Package) (setting : Setting)
        (place : List ℕ) (number : ℕ) (start : Start) (run : Run) (path : List ℕ)
        (ready : IsPackage world config made)
        → IsSource world config
        → IsHome there config ready.building setting place made.files
        → IsProgramOf config ready.building number start run path
        → (interp : List ℕ) × (program_interp ready.building.faces run ≡ Some interp)
        × (is_on_list config.names (base_of interp) ≡ true)
        × (file : WorldFile) × (file_at there interp ≡ Some file) }
{}
