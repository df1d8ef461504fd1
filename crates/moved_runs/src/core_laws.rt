//! Laws of a moved run over any two searches, each the contract of a function that does nothing.
//! `X` is why a request has no target.

ghost use Rattle.std.specs.Prelude.{◌≡◌, ◌≤◌, ◌<◌, ◌↔◌, ℕ, List, Some, length, map, slice_get, take, true};
ghost use Rattle.load_model.specs.LoadList.{IsEndedRun, IsRun, Loaded, Object, Search, count_after, found_for, is_known};
ghost use Rattle.load_model.specs.Runs.{IsLocal, loader_of, need_targets, phase_of, start_count, target_in};
ghost use Rattle.moved_runs.specs.Moved.{AreMoved, all_renamed, loaded_there, new_names};
ghost use Rattle.load_model.specs.LoadList.{Asked};

/// A moved program has the run there that it has here: the objects there in the same order, the
/// same requests for the new names, with equal targets, and the same ends of phases.
pub fn moved_run<X>()
    ensures { (too_many too_many_there : X) (limit : ℕ) (here there : Search X)
        (name_of : ℕ → List ℕ) (program program_there : Object) (opens : List (List ℕ))
        (run : Loaded) (ends : List Loaded) (objs_there : List Object)
        → IsEndedRun (found_for too_many limit here) program opens run ends
        → AreMoved name_of there run objs_there
        → slice_get objs_there 0 ≡ Some program_there
        → IsEndedRun (found_for too_many_there limit there) program_there
        (new_names name_of run.log opens)
        (record { objs = objs_there; log = all_renamed name_of run.log })
        (map (loaded_there name_of objs_there) ends) }
{}

/// After equally many requests a name is known there for an object exactly if the object is loaded,
/// is not the program, and has this name.
pub fn known_exactly<X>()
    ensures { (too_many : X) (limit : ℕ) (here there : Search X) (name_of : ℕ → List ℕ)
        (program : Object) (opens : List (List ℕ)) (run : Loaded) (objs_there : List Object)
        → IsRun (found_for too_many limit here) program opens run
        → AreMoved name_of there run objs_there
        → (m j : ℕ) (n : List ℕ) (y : Object) → m ≤ length run.log
        → j < count_after (take m run.log) → slice_get objs_there j ≡ Some y
        → (is_known (all_renamed name_of (take m run.log)) n j y ≡ true)
        ↔ ((0 < j) × (name_of j ≡ n)) }
{}

/// All requests there for the name of an object go to it.
pub fn named_target<X>()
    ensures { (too_many : X) (limit : ℕ) (here there : Search X) (name_of : ℕ → List ℕ)
        (program : Object) (opens : List (List ℕ)) (run : Loaded) (objs_there : List Object)
        → IsRun (found_for too_many limit here) program opens run
        → AreMoved name_of there run objs_there
        → (m : ℕ) (a : Asked) → slice_get run.log m ≡ Some a
        → target_in (all_renamed name_of run.log) (name_of a.target) ≡ a.target }
{}

/// The loaders are the same.
pub fn same_loaders()
    ensures { (name_of : ℕ → List ℕ) (log : List Asked) (j : ℕ)
        → loader_of (all_renamed name_of log) j ≡ loader_of log j }
{}

/// Each object comes in the same phase, and as many come in the first.
pub fn same_phases<X>()
    ensures phase { (too_many : X) (limit : ℕ) (here there : Search X) (name_of : ℕ → List ℕ)
        (program : Object) (opens : List (List ℕ)) (run : Loaded) (ends : List Loaded)
        (objs_there : List Object)
        → IsEndedRun (found_for too_many limit here) program opens run ends
        → AreMoved name_of there run objs_there
        → (j : ℕ) → phase_of (map (loaded_there name_of objs_there) ends) j ≡ phase_of ends j }
    ensures start { (too_many : X) (limit : ℕ) (here there : Search X) (name_of : ℕ → List ℕ)
        (program : Object) (opens : List (List ℕ)) (run : Loaded) (ends : List Loaded)
        (objs_there : List Object)
        → IsEndedRun (found_for too_many limit here) program opens run ends
        → AreMoved name_of there run objs_there
        → start_count (map (loaded_there name_of objs_there) ends) ≡ start_count ends }
{}

/// The needs of each object go to the same objects, and the local lists are the same.
pub fn same_local_lists<X>()
    ensures targets { (too_many : X) (limit : ℕ) (here there : Search X) (name_of : ℕ → List ℕ)
        (program : Object) (opens : List (List ℕ)) (run : Loaded) (objs_there : List Object)
        → IsRun (found_for too_many limit here) program opens run
        → AreMoved name_of there run objs_there
        → (k : ℕ)
        → need_targets (record { objs = objs_there; log = all_renamed name_of run.log }) k
        ≡ need_targets run k }
    ensures roots { (too_many : X) (limit : ℕ) (here there : Search X) (name_of : ℕ → List ℕ)
        (program : Object) (opens : List (List ℕ)) (run : Loaded) (objs_there : List Object)
        → IsRun (found_for too_many limit here) program opens run
        → AreMoved name_of there run objs_there
        → map (target_in (all_renamed name_of run.log)) (new_names name_of run.log opens)
        ≡ map (target_in run.log) opens }
    ensures locals { (too_many : X) (limit : ℕ) (here there : Search X) (name_of : ℕ → List ℕ)
        (program : Object) (opens : List (List ℕ)) (run : Loaded) (objs_there : List Object)
        → IsRun (found_for too_many limit here) program opens run
        → AreMoved name_of there run objs_there
        → (root : ℕ) (ks : List ℕ) → IsLocal run root ks
        → IsLocal (record { objs = objs_there; log = all_renamed name_of run.log }) root ks }
{}
