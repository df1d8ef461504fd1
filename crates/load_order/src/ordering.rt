//! The load list of a program and of the names that it opens.
//!
//! ld.so(8), dlopen(3). Load lists are said in `specs/Loads.antt` of `load_model`, the answer in
//! `specs/Answering.antt`, and the phases in `specs/Ending.antt`.

ghost use Rattle.std.specs.Prelude.{◌≡◌, ◌<◌, ◌≤◌, List as Sequence, [], ℕ, All, IfOk, OnOk, length};
ghost use Rattle.load_model.specs.LoadList.{Loaded, Object};
ghost use Rattle.load_model.specs.Opening.{OnlyGrew};
ghost use Rattle.load_model.specs.Runs.{AreBelow};
ghost use Rattle.load_order.specs.Ending.{IsLoadEnd, IsOpening, IsOpeningAll, IsPhaseMore, IsPhaseReady};
ghost use Rattle.load_order.specs.Answering.{IsLoadAnswer};
ghost use Rattle.load_order.specs.Reaching.{IsMadeOf};
ghost use Rattle.load_requests.specs.Standing.{IsSafe, Stands};

use crate::locals::local_lists;
use crate::phases::walk;
use load_model::{List, Name, Opener, Run, Setting};
use load_requests::{LoadStop, Loading, Request, ask, start as start_with};
use path_text::{Abs, NoMemory};
use std::alloc::Global;

/// Loads a program and the names that it opens, in order.
pub fn load<P: Opener>(
    alloc: Global,
    opener: &mut P,
    setting: &Setting,
    start: &Abs,
    opens: &[Name],
) -> Result<Run, LoadStop>
    requires { (P.seen opener.old).machine ≡ setting.now.machine }
    ensures answer { IsLoadAnswer setting.now (P.seen opener.old) (P.seen opener.new) start.now
        opens.now result }
    ensures grew { OnlyGrew (P.seen opener.old) (P.seen opener.new) }
{
    let mut loading = match start_with(alloc, opener, start) {
        Ok(loading) => loading,
        Err(stop) => return Err(stop),
    };
    match walk(alloc, opener, setting, &mut loading) {
        Ok(()) => {}
        Err(stop) => return Err(stop),
    }
    let global = loading.count() as u32;
    match open_all(alloc, opener, setting, &mut loading, opens) {
        Ok(roots) => match made(alloc, loading, global, opens, roots) {
            Ok(run) => Ok(run),
            Err(_) => Err(LoadStop::NoMemory),
        },
        Err(stop) => Err(stop),
    }
}

/// Opens the names in order, a phase each, and answers their roots.
fn open_all<P: Opener>(
    alloc: Global,
    opener: &mut P,
    setting: &Setting,
    loading: &mut Loading,
    opens: &[Name],
) -> Result<List<u32>, LoadStop>
    requires machine { (P.seen opener.old).machine ≡ setting.now.machine }
    requires safe { IsSafe (P.seen opener.old).faces loading.old }
    requires all { length loading.old.targets ≡ length loading.old.objs }
    ensures safe { OnOk result (IsSafe (P.seen opener.new).faces loading.new) }
    ensures ready { IfOk result (λ roots. IsPhaseReady loading.old loading.new (length opens.now)
        roots) }
    ensures answer { (path : Sequence ℕ) (program : Object) (loaded : Loaded)
        (ends : Sequence Loaded)
        → IsLoadEnd setting.now (P.seen opener.old).told (P.seen opener.old).faces path program []
        loading.old [] loaded ends
        → IsOpeningAll setting.now (P.seen opener.old) (P.seen opener.new) path program opens.now
        loading.new ends result }
    ensures grew { OnlyGrew (P.seen opener.old) (P.seen opener.new) }
{
    let mut roots = List::new(alloc);
    for name in opens {
        let root = match open_one(alloc, opener, setting, loading, name) {
            Ok(root) => root,
            Err(stop) => return Err(stop),
        };
        match roots.push(root) {
            Ok(()) => {}
            Err(_) => return Err(LoadStop::NoMemory),
        }
    }
    Ok(roots)
}

/// Opens a name: asks for it, and walks what this brings. More phases than have numbers are want of
/// memory.
fn open_one<P: Opener>(
    alloc: Global,
    opener: &mut P,
    setting: &Setting,
    loading: &mut Loading,
    name: &Name,
) -> Result<u32, LoadStop>
    requires machine { (P.seen opener.old).machine ≡ setting.now.machine }
    requires safe { IsSafe (P.seen opener.old).faces loading.old }
    requires all { length loading.old.targets ≡ length loading.old.objs }
    ensures safe { OnOk result (IsSafe (P.seen opener.new).faces loading.new) }
    ensures more { OnOk result (IsPhaseMore loading.old loading.new) }
    ensures root { IfOk result (λ root. root < length loading.new.objs) }
    ensures answer { (loaded : Loaded) → Stands (P.seen opener.old).faces loading.old loaded
        → IsOpening setting.now (P.seen opener.old) (P.seen opener.new) loading.old loading.new
        loaded name.now result }
    ensures grew { OnlyGrew (P.seen opener.old) (P.seen opener.new) }
{
    match loading.phase.checked_add(1) {
        Some(phase) => loading.phase = phase,
        None => return Err(LoadStop::NoMemory),
    }
    match ask(alloc, opener, setting, loading, Request { by: 0, name }) {
        Ok(root) => match walk(alloc, opener, setting, loading) {
            Ok(()) => Ok(root),
            Err(stop) => Err(stop),
        },
        Err(stop) => Err(stop),
    }
}

/// The run, with the local list of each root.
fn made(
    alloc: Global,
    loading: Loading,
    global: u32,
    opens: &[Name],
    roots: List<u32>,
) -> Result<Run, NoMemory>
    requires targets { All (AreBelow (length loading.targets)) loading.targets }
    requires roots { AreBelow (length loading.targets) roots }
    ensures { IfOk result (λ run. IsMadeOf loading global opens.now roots run) }
{
    let locals = local_lists(alloc, loading.targets.as_slice(), roots.as_slice())?;
    let opens = copied(alloc, opens)?;
    let Loading { objs, targets, .. } = loading;
    Ok(Run {
        objs,
        targets,
        global,
        opens,
        roots,
        locals,
    })
}

fn copied(alloc: Global, names: &[Name]) -> Result<List<Name>, NoMemory>
    ensures { IfOk result (λ copies. copies ≡ names.now) }
{
    let mut copies = List::new(alloc);
    for name in names {
        copies.push(name.copy(alloc)?)?;
    }
    Ok(copies)
}
