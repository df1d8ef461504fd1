//! Loading all programs of a build, and then checking the versions of all.
//!
//! ld.so(8), dlopen(3). The answer is said in `specs/Answering.antt`.

ghost use Rattle.std.specs.Prelude.{◌≡◌, All, IfErr, IfOk};
ghost use Rattle.std.specs.List.{AllZip};
ghost use Rattle.answers.specs.Told.{WhereTold};
ghost use Rattle.build_runs.specs.Answering.{AreSafeRuns, IsLoadsAnswer, IsSafeRun};
ghost use Rattle.build_runs.specs.BuildRuns.{IsRunFor};
ghost use Rattle.build_runs.specs.Loading.{IsBuildStop};
ghost use Rattle.load_model.specs.Opening.{OnlyGrew};
ghost use Rattle.load_model.specs.Runs.{IsRunOver};
ghost use Rattle.ports.specs.View.{OnlyReads};

use crate::checking::check_runs;
use crate::listing::load_runs;
use crate::ordering::put_in_order;
use crate::programs::Start;
use crate::stops::{LoadsStop, stop_of_replay};
use load_model::{List, Opener, Run, Setting};
use loader_replay::ReplayStop;
use ports::Tree;
use std::alloc::Global;
use tree_opener::{TreeOpener, TreeView};

/// The runs of all programs, in their order, and the faces of all their objects, in the order of
/// runs and objects, each with the hash tables of its file.
#[derive(Drop)]
pub struct LoadedRuns {
    pub table: TreeOpener,
    pub runs: List<Run>,
}

/// Loads all programs in order, each with the names that it opens, and then checks the versions
/// that their objects ask for, in the same order.
pub fn load_all<T: Tree>(
    alloc: Global,
    tree: &mut T,
    setting: &Setting,
    programs: &[Start],
) -> Result<LoadedRuns, LoadsStop>
    ensures answer { IsLoadsAnswer setting.now (T.seen tree.old) (T.seen tree.new) programs.now
        result }
    ensures safe { IfOk result
        (λ loaded. AreSafeRuns setting.now.machine programs.now loaded.table.faces loaded.runs) }
    ensures over { IfOk result (λ loaded. All (IsRunOver loaded.table.faces) loaded.runs) }
    ensures only_reads { OnlyReads (T.seen tree.old) (T.seen tree.new) }
{
    let Ok(mut opener) = TreeOpener::new(alloc, setting.machine) else {
        return Err(LoadsStop::NoMemory);
    };
    match load_over(alloc, &mut opener, tree, setting, programs) {
        Ok(runs) => match put_in_order(alloc, opener, runs) {
            Ok(loaded) => Ok(loaded),
            Err(_) => Err(LoadsStop::NoMemory),
        },
        Err(stop) => Err(stop_of_replay(stop)),
    }
}

/// Loads and checks all programs over a tree; the opener keeps the faces.
fn load_over<T: Tree>(
    alloc: Global,
    opener: &mut TreeOpener,
    tree: &mut T,
    setting: &Setting,
    programs: &[Start],
) -> Result<Vec<Run>, ReplayStop>
    requires { opener.old.machine ≡ setting.now.machine }
    ensures machine { opener.new.machine ≡ opener.old.machine }
    ensures safe { IfOk result
        (λ runs. AllZip (IsSafeRun opener.new.faces) programs.now runs.items) }
    ensures runs { IfOk result (λ runs. WhereTold (T.seen tree.old).told
        (λ world. AllZip (IsRunFor setting.now world opener.new.faces) programs.now runs.items)) }
    ensures stop { IfErr result (λ stop. IsBuildStop setting.now (T.seen tree.old).told
        (T.seen tree.old).faults (T.seen tree.new).faults programs.now stop) }
    ensures only_reads { OnlyReads (T.seen tree.old) (T.seen tree.new) }
{
    let mut view = TreeView { opener, tree };
    let loaded = load_in_view(alloc, &mut view, setting, programs);
    let TreeView { opener, tree } = view;
    let _ = opener;
    let _ = tree;
    loaded
}

/// The same through a view, which still borrows the same opener and tree afterwards.
fn load_in_view<T: Tree>(
    alloc: Global,
    view: &mut TreeView<'_, '_, T>,
    setting: &Setting,
    programs: &[Start],
) -> Result<Vec<Run>, ReplayStop>
    requires { view.old.opener.now.machine ≡ setting.now.machine }
    ensures same_opener { view.new.opener.ghost_name ≡ view.old.opener.ghost_name }
    ensures same_tree { view.new.tree.ghost_name ≡ view.old.tree.ghost_name }
    ensures machine { view.new.opener.now.machine ≡ view.old.opener.now.machine }
    ensures safe { IfOk result
        (λ runs. AllZip (IsSafeRun view.new.opener.now.faces) programs.now runs.items) }
    ensures runs { IfOk result (λ runs. WhereTold (T.seen view.old.tree.now).told
        (λ world. AllZip (IsRunFor setting.now world view.new.opener.now.faces) programs.now
        runs.items)) }
    ensures stop { IfErr result (λ stop. IsBuildStop setting.now (T.seen view.old.tree.now).told
        (T.seen view.old.tree.now).faults (T.seen view.new.tree.now).faults programs.now stop) }
    ensures only_reads { OnlyReads (T.seen view.old.tree.now) (T.seen view.new.tree.now) }
{
    load_checked(alloc, view, setting, programs)
}

/// The runs of all programs over an opener, whose versions are all met.
fn load_checked<P: Opener>(
    alloc: Global,
    opener: &mut P,
    setting: &Setting,
    programs: &[Start],
) -> Result<Vec<Run>, ReplayStop>
    requires { (P.seen opener.old).machine ≡ setting.now.machine }
    ensures safe { IfOk result
        (λ runs. AllZip (IsSafeRun (P.seen opener.new).faces) programs.now runs.items) }
    ensures runs { IfOk result (λ runs. WhereTold (P.seen opener.old).told
        (λ world. AllZip (IsRunFor setting.now world (P.seen opener.new).faces) programs.now
        runs.items)) }
    ensures stop { IfErr result (λ stop. IsBuildStop setting.now (P.seen opener.old).told
        (P.seen opener.old).faults (P.seen opener.new).faults programs.now stop) }
    ensures grew { OnlyGrew (P.seen opener.old) (P.seen opener.new) }
{
    match load_runs(alloc, opener, setting, programs) {
        Ok(runs) => match check_runs(alloc, opener.faces(), runs.as_slice()) {
            Ok(()) => Ok(runs),
            Err(stop) => Err(stop),
        },
        Err(stop) => Err(ReplayStop::Load(stop)),
    }
}
