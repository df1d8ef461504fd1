//! Laws of the search by candidates, each the contract of a function that does nothing. How a file
//! is read is a parameter.

ghost use Rattle.std.specs.Prelude.{◌≡◌, ◌⊎◌, ◌++◌, ◌∷◌, [], ℕ, IsUtf8, List, None, Some, Ok, Err, Result, codes, slice_get};
ghost use Rattle.byte_view.specs.declared.flaws.Flaw.{Flaw};
ghost use Rattle.path_text.specs.FileName.{IsFileName};
ghost use Rattle.path_text.specs.Path.{IsNormalPath, path_of};
ghost use Rattle.load_model.specs.Candidates.{Candidate, IsOpenedIn, first_decision, loader_in, opened_among, path_search, search_items};
ghost use Rattle.load_model.specs.Chains.{chain_log, chain_setting, chained};
ghost use Rattle.load_model.specs.Deciding.{IsFirstDeciding, IsPassedOver, IsSearchedIn, IsUpToDeciding};
ghost use Rattle.load_model.specs.Diamond.{broken, diamond, diamond_program, diamond_run, diamond_setting, program_path, read_number};
ghost use Rattle.load_model.specs.Expansions.{app_folder, with_lib, with_platform};
ghost use Rattle.load_model.specs.Joined.{joined};
ghost use Rattle.load_model.specs.LoadList.{Loaded, Object, run as run_by, found_for};
ghost use Rattle.load_model.specs.Loads.{IsLoadList, goes_to, program_at};
ghost use Rattle.load_model.specs.RunPaths.{Folder, Relative, Unset, items_of};
ghost use Rattle.load_model.specs.SameNames.{IsByNames, IsCarried, LoadsAlike};
ghost use Rattle.load_model.specs.SmallHost.{host_setting, read_small, small_copy, small_file, small_host, small_run, small_setting, small_world};
ghost use Rattle.load_model.specs.World.{World, file_at};
ghost use Rattle.load_model.specs.declared.faces.Face.{Face};
ghost use Rattle.load_model.specs.declared.refusals.LoadRefusal.{LoadRefusal};
ghost use Rattle.load_model.specs.declared.refusals.LoadRefusal.TheVariants.{MissingLibrary, TooManyObjects};
ghost use Rattle.load_model.specs.declared.setting.Setting.{Setting};
ghost use Rattle.load_model.specs.declared.world.WorldFile.{WorldFile};

/// What is found is what the first candidate decides that is a refused item, or whose kind is
/// neither Absent nor Other; and nothing is found exactly where every candidate is passed over.
pub fn first_candidate_decides()
    ensures decides { (read : List ℕ → Result Face Flaw) (setting : Setting) (world : World)
        (cs : List Candidate) (decided : Result Object LoadRefusal)
        → first_decision read setting world cs ≡ Some decided
        → IsFirstDeciding read setting world cs decided }
    ensures decided { (read : List ℕ → Result Face Flaw) (setting : Setting) (world : World)
        (cs : List Candidate) (decided : Result Object LoadRefusal)
        → IsFirstDeciding read setting world cs decided
        → first_decision read setting world cs ≡ Some decided }
    ensures none { (read : List ℕ → Result Face Flaw) (setting : Setting) (world : World)
        (cs : List Candidate)
        → first_decision read setting world cs ≡ None
        → (i : ℕ) (c : Candidate) → slice_get cs i ≡ Some c → IsPassedOver read setting world c }
    ensures passed { (read : List ℕ → Result Face Flaw) (setting : Setting) (world : World)
        (cs : List Candidate)
        → ((i : ℕ) (c : Candidate) → slice_get cs i ≡ Some c
        → IsPassedOver read setting world c)
        → first_decision read setting world cs ≡ None }
{}

/// What a search opens is each candidate where something lies, up to the one that decides; and a
/// run opens the path of the program and what the searches for its requests open.
pub fn search_opens_up_to_deciding()
    ensures only { (read : List ℕ → Result Face Flaw) (setting : Setting) (world : World)
        (cs : List Candidate) (k : ℕ) (path : List ℕ)
        → slice_get (opened_among read setting world cs) k ≡ Some path
        → IsUpToDeciding read setting world cs path }
    ensures all { (read : List ℕ → Result Face Flaw) (setting : Setting) (world : World)
        (cs : List Candidate) (path : List ℕ)
        → IsUpToDeciding read setting world cs path
        → (k : ℕ) × (slice_get (opened_among read setting world cs) k ≡ Some path) }
    ensures run_only { (read : List ℕ → Result Face Flaw) (setting : Setting) (world : World)
        (program : List ℕ) (run : Loaded) (path : List ℕ)
        → IsOpenedIn read setting world program run path
        → (path ≡ program) ⊎ IsSearchedIn read setting world run path }
    ensures run_all { (read : List ℕ → Result Face Flaw) (setting : Setting) (world : World)
        (program : List ℕ) (run : Loaded) (path : List ℕ)
        → (path ≡ program) ⊎ IsSearchedIn read setting world run path
        → IsOpenedIn read setting world program run path }
{}

/// A directory joined with a file name is what reading the joined text gives, and it tells which
/// directory it was.
pub fn joined_is_path()
    ensures path { (dir name : List ℕ)
        → IsNormalPath dir → IsFileName name → IsUtf8 name
        → path_of (dir ++ 47 ∷ name) ≡ Ok (joined dir name) }
    ensures dir { (d e m n : List ℕ)
        → IsNormalPath d → IsNormalPath e → IsFileName m → IsFileName n
        → joined d m ≡ joined e n
        → d ≡ e }
{}

/// The same list in two worlds, for any reader of files, any two worlds and any two settings of
/// one machine. Where each request of a list goes to an object by its name, and the listed
/// directories of another world have an object for each of these names, a copy of the program
/// loads the same there, and opens nothing else.
pub fn same_names_load_alike()
    ensures { (read : List ℕ → Result Face Flaw) (setting setting_there : Setting)
        (here there : World) (path : List ℕ) (loaded : Loaded) (ends : List Loaded)
        (start : WorldFile) (place name : List ℕ) (copy : WorldFile)
        → IsLoadList read setting here path [] loaded ends
        → IsByNames loaded
        → file_at here path ≡ Some start
        → setting_there.machine ≡ setting.machine
        → IsCarried read setting_there there start loaded.objs place name copy
        → LoadsAlike read setting_there there loaded copy }
{}

/// Worked items of run paths of an object in /opt/app/bin. A `$` that spells no token stays, and
/// reading goes on behind it; empty items are left out.
pub fn items_are_expanded()
    ensures origin { items_of with_lib app_folder (codes "$ORIGIN/../lib")
        ≡ Folder (codes "/opt/app/bin/../lib") ∷ [] }
    ensures braces { items_of with_lib app_folder (codes "${ORIGIN}x")
        ≡ Folder (codes "/opt/app/binx") ∷ [] }
    ensures longer_word { items_of with_lib app_folder (codes "$ORIGINx")
        ≡ Relative (codes "$ORIGINx") ∷ [] }
    ensures lib { items_of with_lib app_folder (codes "/usr/$LIB/app")
        ≡ Folder (codes "/usr/lib64/app") ∷ [] }
    ensures lib_relative { items_of with_lib app_folder (codes "$LIB")
        ≡ Relative (codes "$LIB") ∷ [] }
    ensures lib_unset { items_of with_platform app_folder (codes "/usr/$LIB/app")
        ≡ Unset (codes "/usr/$LIB/app") ∷ [] }
    ensures platform { items_of with_platform app_folder (codes "/usr/${PLATFORM}")
        ≡ Folder (codes "/usr/haswell") ∷ [] }
    ensures platform_unset { items_of with_lib app_folder (codes "/usr/${PLATFORM}")
        ≡ Unset (codes "/usr/${PLATFORM}") ∷ [] }
    ensures inner { items_of with_lib app_folder (codes "/${X$ORIGIN}")
        ≡ Folder (codes "/${X/opt/app/bin}") ∷ [] }
    ensures twice { items_of with_lib app_folder (codes "/$$ORIGIN")
        ≡ Folder (codes "/$/opt/app/bin") ∷ [] }
    ensures twice_relative { items_of with_lib app_folder (codes "$$ORIGIN")
        ≡ Relative (codes "$$ORIGIN") ∷ [] }
    ensures last { items_of with_lib app_folder (codes "/a$") ≡ Folder (codes "/a$") ∷ [] }
    ensures last_relative { items_of with_lib app_folder (codes "a$") ≡ Relative (codes "a$") ∷ [] }
    ensures empty { items_of with_lib app_folder [] ≡ [] }
    ensures colons { items_of with_lib app_folder (codes ":/a::$ORIGIN:")
        ≡ Folder (codes "/a") ∷ Folder (codes "/opt/app/bin") ∷ [] }
{}

/// A worked list: breadth-first, each object once, opened names last; a missing library with the
/// path of its asker; the limit.
pub fn diamond_loads_breadth_first()
    ensures program { program_at read_number diamond_setting diamond program_path
        ≡ Ok diamond_program }
    ensures order { run_by (goes_to read_number diamond_setting diamond program_path) 5
        diamond_program (codes "d" ∷ [])
        ≡ Ok diamond_run }
    ensures missing { run_by (goes_to read_number diamond_setting broken program_path) 5
        diamond_program (codes "d" ∷ [])
        ≡ Err (MissingLibrary (codes "c") (codes "/app/lib/a")) }
    ensures limit { run_by
        (found_for (TooManyObjects program_path) 4
        (path_search read_number diamond_setting diamond)) 4
        diamond_program (codes "d" ∷ [])
        ≡ Err (TooManyObjects program_path) }
{}

/// The premises of the same list in two worlds can be met: by a program with one library, and a
/// host that has the library in another directory, as another file.
pub fn small_host_loads_alike()
    ensures list { IsLoadList read_small small_setting small_world small_file.path [] small_run
        (small_run ∷ []) }
    ensures by_names { IsByNames small_run }
    ensures starts { file_at small_world small_file.path ≡ Some small_file }
    ensures machine { host_setting.machine ≡ small_setting.machine }
    ensures carried { IsCarried read_small host_setting small_host small_file small_run.objs
        (codes "/apps") (codes "AppRun") small_copy }
{}

/// Worked items of a search: RPATH along the chain of loaders, each under the folder of its holder;
/// a RUNPATH alone, for its own object alone; and the listed directories last.
pub fn run_paths_along_the_chain()
    ensures program { search_items chain_setting chained (loader_in chain_log) 0
        ≡ Folder (codes "/app/bin/../lib") ∷ Folder (codes "/lib") ∷ [] }
    ensures own_first { search_items chain_setting chained (loader_in chain_log) 1
        ≡ Folder (codes "/one") ∷ Folder (codes "/first") ∷ Folder (codes "/app/bin/../lib")
        ∷ Folder (codes "/lib") ∷ [] }
    ensures of_loaders { search_items chain_setting chained (loader_in chain_log) 2
        ≡ Folder (codes "/one") ∷ Folder (codes "/first") ∷ Folder (codes "/app/bin/../lib")
        ∷ Folder (codes "/lib") ∷ [] }
    ensures runpath { search_items chain_setting chained (loader_in chain_log) 3
        ≡ Folder (codes "/three") ∷ Folder (codes "/lib") ∷ [] }
    ensures runpath_of_a_loader { search_items chain_setting chained (loader_in chain_log) 4
        ≡ Relative (codes "fourth") ∷ Unset (codes "$LIB")
        ∷ Folder (codes "/one") ∷ Folder (codes "/first") ∷ Folder (codes "/app/bin/../lib")
        ∷ Folder (codes "/lib") ∷ [] }
{}
