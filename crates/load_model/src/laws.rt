//! Laws of load lists, each the contract of a function that does nothing.

ghost use Rattle.std.specs.Prelude.{◌≡◌, ◌<◌, ◌⊎◌, ℕ, IsUtf8, List, [], ◌∷◌, ◌++◌, Result, Ok, Err, length, map, slice_get};
ghost use Rattle.byte_view.specs.declared.flaws.Flaw.{Flaw};
ghost use Rattle.path_text.specs.FileName.{IsFileName};
ghost use Rattle.path_text.specs.Path.{IsNormalPath, path_of};
ghost use Rattle.path_text.specs.declared.absolute.PathFault.TheVariants.{NotText};
ghost use Rattle.load_model.specs.Candidates.{loader_in};
ghost use Rattle.load_model.specs.LoadList.{AreAlike, Asked, GoesByKey, IsRun, Loaded, Object, Search, run as run_by, run_ends, found_for, up_to, with_numbers};
ghost use Rattle.load_model.specs.Loads.{IsLoadList, IsStopped, goes_to, program_at};
ghost use Rattle.load_model.specs.Runs.{IsLocal, target_in};
ghost use Rattle.load_model.specs.World.{World};
ghost use Rattle.load_model.specs.declared.faces.Face.{Face};
ghost use Rattle.load_model.specs.declared.limits.TheConstants.{MOST_OBJECTS};
ghost use Rattle.load_model.specs.declared.refusals.LoadRefusal.{LoadRefusal};
ghost use Rattle.load_model.specs.declared.setting.Setting.{Setting};

/// A program and its opened names have at most one load list, with the ends of its phases.
pub fn at_most_one_load_list()
    ensures { (read : List ℕ → Result Face Flaw) (setting : Setting) (world : World)
        (path : List ℕ) (opens : List (List ℕ)) (xs ys : Loaded) (xs_ends ys_ends : List Loaded)
        → IsLoadList read setting world path opens xs xs_ends
        → IsLoadList read setting world path opens ys ys_ends
        → (xs ≡ ys) × (xs_ends ≡ ys_ends) }
{}

/// A program has no load list where it stops, and it does not stop in two ways.
pub fn a_list_or_one_stop()
    ensures list { (read : List ℕ → Result Face Flaw) (setting : Setting) (world : World)
        (path : List ℕ) (opens : List (List ℕ)) (loaded : Loaded)
        (ends : List Loaded) (stop : LoadRefusal)
        → IsLoadList read setting world path opens loaded ends
        → IsStopped read setting world path opens stop
        → ⊥ }
    ensures stops { (read : List ℕ → Result Face Flaw) (setting : Setting) (world : World)
        (path : List ℕ) (opens : List (List ℕ)) (s t : LoadRefusal)
        → IsStopped read setting world path opens s
        → IsStopped read setting world path opens t
        → s ≡ t }
{}

/// A program has a load list or a stop, in every world.
pub fn always_a_list_or_a_stop()
    ensures { (read : List ℕ → Result Face Flaw) (setting : Setting) (world : World)
        (path : List ℕ) (opens : List (List ℕ))
        → ((loaded : Loaded) × (ends : List Loaded)
        × IsLoadList read setting world path opens loaded ends)
        ⊎ ((stop : LoadRefusal) × IsStopped read setting world path opens stop) }
{}

/// What the recursion answers is the load list, with the ends of its phases.
pub fn recursion_gives_the_list()
    ensures { (read : List ℕ → Result Face Flaw) (setting : Setting) (world : World)
        (path : List ℕ) (opens : List (List ℕ)) (program : Object)
        (loaded : Loaded) (ends : List Loaded)
        → program_at read setting world path ≡ Ok program
        → run_by (goes_to read setting world path) MOST_OBJECTS program opens ≡ Ok loaded
        → run_ends (goes_to read setting world path) MOST_OBJECTS program opens ≡ Ok ends
        → IsLoadList read setting world path opens loaded ends }
{}

/// Where the recursion stops, the load list stops with the same reason.
pub fn recursion_gives_the_stop()
    ensures run { (read : List ℕ → Result Face Flaw) (setting : Setting) (world : World)
        (path : List ℕ) (opens : List (List ℕ)) (program : Object) (stop : LoadRefusal)
        → program_at read setting world path ≡ Ok program
        → run_by (goes_to read setting world path) MOST_OBJECTS program opens ≡ Err stop
        → IsStopped read setting world path opens stop }
    ensures ends { (read : List ℕ → Result Face Flaw) (setting : Setting) (world : World)
        (path : List ℕ) (opens : List (List ℕ)) (program : Object) (stop : LoadRefusal)
        → run_ends (goes_to read setting world path) MOST_OBJECTS program opens ≡ Err stop
        → run_by (goes_to read setting world path) MOST_OBJECTS program opens ≡ Err stop }
{}

/// A load list is what the recursion answers.
pub fn list_is_found_by_recursion()
    ensures { (read : List ℕ → Result Face Flaw) (setting : Setting) (world : World)
        (path : List ℕ) (opens : List (List ℕ)) (loaded : Loaded) (ends : List Loaded)
        → IsLoadList read setting world path opens loaded ends
        → (program : Object) × (program_at read setting world path ≡ Ok program)
        × (run_by (goes_to read setting world path) MOST_OBJECTS program opens ≡ Ok loaded)
        × (run_ends (goes_to read setting world path) MOST_OBJECTS program opens ≡ Ok ends) }
{}

/// The objects are the program and the targets of all requests in order, each at its first
/// occurrence.
pub fn objects_are_the_targets()
    ensures { (read : List ℕ → Result Face Flaw) (setting : Setting) (world : World)
        (path : List ℕ) (opens : List (List ℕ)) (loaded : Loaded) (ends : List Loaded)
        → IsLoadList read setting world path opens loaded ends
        → with_numbers (0 ∷ []) (map (λ a. a.target) loaded.log) ≡ up_to (length loaded.objs) }
{}

/// Each object but the program has a loader with a smaller number.
pub fn loaders_come_before()
    ensures { (read : List ℕ → Result Face Flaw) (setting : Setting) (world : World)
        (path : List ℕ) (opens : List (List ℕ)) (loaded : Loaded) (ends : List Loaded)
        → IsLoadList read setting world path opens loaded ends
        → (j : ℕ) → 0 < j → j < length loaded.objs → loader_in loaded.log j < j }
{}

/// All requests of one name go to one object of the list.
pub fn a_name_goes_to_one_object()
    ensures one { (read : List ℕ → Result Face Flaw) (setting : Setting) (world : World)
        (path : List ℕ) (opens : List (List ℕ)) (loaded : Loaded) (ends : List Loaded)
        → IsLoadList read setting world path opens loaded ends
        → (m : ℕ) (a : Asked) → slice_get loaded.log m ≡ Some a
        → target_in loaded.log a.request.name ≡ a.target }
    ensures loaded { (read : List ℕ → Result Face Flaw) (setting : Setting) (world : World)
        (path : List ℕ) (opens : List (List ℕ)) (loaded : Loaded) (ends : List Loaded)
        → IsLoadList read setting world path opens loaded ends
        → (m : ℕ) (a : Asked) → slice_get loaded.log m ≡ Some a
        → a.target < length loaded.objs }
{}

/// Each need of each object is a request of it, and each opened name is one of the program.
pub fn each_need_is_asked()
    ensures needs { (read : List ℕ → Result Face Flaw) (setting : Setting) (world : World)
        (path : List ℕ) (opens : List (List ℕ)) (loaded : Loaded) (ends : List Loaded)
        → IsLoadList read setting world path opens loaded ends
        → (j : ℕ) (o : Object) → slice_get loaded.objs j ≡ Some o
        → (k : ℕ) (n : List ℕ) → slice_get o.face.needs k ≡ Some n
        → (m : ℕ) × (a : Asked) × (slice_get loaded.log m ≡ Some a)
        × (a.request ≡ record { by = j; name = n }) }
    ensures opens { (read : List ℕ → Result Face Flaw) (setting : Setting) (world : World)
        (path : List ℕ) (opens : List (List ℕ)) (loaded : Loaded) (ends : List Loaded)
        → IsLoadList read setting world path opens loaded ends
        → (k : ℕ) (n : List ℕ) → slice_get opens k ≡ Some n
        → (m : ℕ) × (a : Asked) × (slice_get loaded.log m ≡ Some a)
        × (a.request ≡ record { by = 0; name = n }) }
{}

/// At most one list is the local list of a root.
pub fn at_most_one_local_list()
    ensures { (loaded : Loaded) (root : ℕ) (ks ls : List ℕ)
        → IsLocal loaded root ks
        → IsLocal loaded root ls
        → ks ≡ ls }
{}

/// Where the key of each object finds a file with the same needs, the run has the same order and
/// the same targets. `X` is why a request has no target.
pub fn run_in_two_worlds<X>()
    ensures { (too_many : X) (limit : ℕ) (here there : Search X) (key : Object → List ℕ)
        (program program_there : Object) (run : Loaded) (objs_there : List Object)
        → IsRun (found_for too_many limit here) program [] run
        → GoesByKey key run.objs run.log
        → AreAlike there key run.objs objs_there
        → slice_get objs_there 0 ≡ Some program_there
        → IsRun (found_for too_many limit there) program_there []
        (record { objs = objs_there; log = run.log }) }
{}

/// A directory joined with a file name that is not UTF-8 gives no path.
pub fn odd_name_has_no_path()
    ensures { (dir name : List ℕ)
        → IsNormalPath dir → IsFileName name → ¬ (IsUtf8 name)
        → path_of (dir ++ 47 ∷ name) ≡ Err NotText }
{}
