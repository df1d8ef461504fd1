//! Laws of a place in another world, each the contract of a function that does nothing.

ghost use Rattle.std.specs.Prelude.{◌≡◌, ◌⊎◌, ◌++◌, ℕ, Bool, List, Result, codes, length, map};
ghost use Rattle.std.specs.List.{flat_map};
ghost use Rattle.byte_view.specs.declared.flaws.Flaw.{Flaw};
ghost use Rattle.path_text.specs.FileName.{IsFileName};
ghost use Rattle.path_text.specs.Path.{IsNormalPath, folder_of};
ghost use Rattle.load_model.specs.Candidates.{IsOpenedIn, candidate_in, path_search};
ghost use Rattle.load_model.specs.Joined.{joined};
ghost use Rattle.load_model.specs.LoadList.{Loaded, Object};
ghost use Rattle.load_model.specs.Loads.{IsLoadList};
ghost use Rattle.load_model.specs.RunPaths.{Folder, items_of};
ghost use Rattle.load_model.specs.World.{World};
ghost use Rattle.load_model.specs.declared.faces.Face.{Face};
ghost use Rattle.load_model.specs.declared.setting.Setting.{Setting};
ghost use Rattle.moved_runs.specs.Moved.{AreMoved, all_renamed, loaded_there, new_names};
ghost use Rattle.moved_runs.specs.OpenedThere.{MayBeOpened};
ghost use Rattle.moved_runs.specs.Placed.{IsUnder, Item, lib_folder, lib_place};
ghost use Rattle.moved_runs.specs.Places.{IsMoved};

/// At a place that meets the premises the search for each new name finds the object of this name:
/// a bundled library in the folder of libraries, a host library in the listed directories.
pub fn moved_search()
    ensures { (read : List ℕ → Result Face Flaw) (setting setting_there : Setting)
        (here there : World) (path : List ℕ) (opens : List (List ℕ)) (loaded : Loaded)
        (ends : List Loaded) (place : List ℕ) (items : List Item) (name_of : ℕ → List ℕ)
        (is_bundled : ℕ → Bool) (program : List ℕ) (objs_there : List Object)
        → IsLoadList read setting here path opens loaded ends
        → IsMoved read setting_there there place items name_of is_bundled program loaded objs_there
        → AreMoved name_of (path_search read setting_there there) loaded objs_there }
{}

/// There the program that lies in the directory has a load list: these objects in the same order,
/// the same requests for the new names, with equal targets, and the same ends of phases.
pub fn moved_load_list()
    ensures { (read : List ℕ → Result Face Flaw) (setting setting_there : Setting)
        (here there : World) (path : List ℕ) (opens : List (List ℕ)) (loaded : Loaded)
        (ends : List Loaded) (place : List ℕ) (items : List Item) (name_of : ℕ → List ℕ)
        (is_bundled : ℕ → Bool) (program : List ℕ) (objs_there : List Object)
        → IsLoadList read setting here path opens loaded ends
        → IsMoved read setting_there there place items name_of is_bundled program loaded objs_there
        → IsLoadList read setting_there there (joined place program)
        (new_names name_of loaded.log opens)
        (record { objs = objs_there; log = all_renamed name_of loaded.log })
        (map (loaded_there name_of objs_there) ends) }
{}

/// A directory that has a file under a place is the place, or lies under it.
pub fn apart_directories()
    ensures { (dir place name target : List ℕ)
        → IsNormalPath dir → IsNormalPath place → IsFileName name
        → joined dir name ≡ joined place target
        → (dir ≡ place) ⊎ IsUnder place dir }
{}

/// Of the paths there it opens only its own, those of bundled libraries in their folder, and for the
/// names of host libraries those in listed directories up to the one that decides.
pub fn moved_program_opens_only()
    ensures { (read : List ℕ → Result Face Flaw) (setting setting_there : Setting)
        (here there : World) (path : List ℕ) (opens : List (List ℕ)) (loaded : Loaded)
        (ends : List Loaded) (place : List ℕ) (items : List Item) (name_of : ℕ → List ℕ)
        (is_bundled : ℕ → Bool) (program : List ℕ) (objs_there : List Object)
        → IsLoadList read setting here path opens loaded ends
        → IsMoved read setting_there there place items name_of is_bundled program loaded objs_there
        → (opened : List ℕ)
        → IsOpenedIn read setting_there there (joined place program)
        (record { objs = objs_there; log = all_renamed name_of loaded.log }) opened
        → MayBeOpened read setting_there there place name_of is_bundled (length loaded.objs) program
        opened }
{}

/// The run paths of the first program, which lies at the place, of others, which lie in usr/bin, and
/// of libraries lead to the folder of libraries, for each file name and at every place.
pub fn run_paths_lead_to_libraries()
    ensures first { (setting : Setting) (place program name : List ℕ)
        → IsNormalPath place → IsFileName program → IsFileName name
        → flat_map (candidate_in name)
        (items_of setting (folder_of (joined place program)) (codes "$ORIGIN/usr/lib"))
        ≡ candidate_in name (Folder (lib_folder place)) }
    ensures others { (setting : Setting) (place tool name : List ℕ)
        → IsNormalPath place → IsFileName tool → IsFileName name
        → flat_map (candidate_in name)
        (items_of setting (folder_of (joined place (codes "usr/bin/" ++ tool)))
        (codes "$ORIGIN/../lib"))
        ≡ candidate_in name (Folder (lib_folder place)) }
    ensures libs { (setting : Setting) (place lib name : List ℕ)
        → IsNormalPath place → IsFileName lib → IsFileName name
        → flat_map (candidate_in name)
        (items_of setting (folder_of (joined place (lib_place lib))) (codes "$ORIGIN"))
        ≡ candidate_in name (Folder (lib_folder place)) }
{}
