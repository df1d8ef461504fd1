//! A phase of the load list: the needs of the objects whose needs are not asked for yet, in load
//! order.
//!
//! dlopen(3). Phases are said in `specs/LoadList.antt` of `load_model`.

ghost use Rattle.std.specs.Prelude.{◌≡◌, ◌<◌, IfOk, OnOk, length};
ghost use Rattle.load_model.specs.LoadList.{Loaded};
ghost use Rattle.load_model.specs.Opening.{OnlyGrew};
ghost use Rattle.load_model.specs.Runs.{AreBelow};
ghost use Rattle.load_order.specs.Needing.{AreAsked, AreNeedsOf};
ghost use Rattle.load_requests.specs.Standing.{IsAsking, IsSafe, IsWalked, IsWalking, Stands};

use load_model::{List, Name, Opener, Setting};
use load_requests::{LoadStop, Loading, Request, ask};
use path_text::NoMemory;
use std::alloc::Global;

/// Asks for the needs of each object whose needs are not asked for yet, and of those that this
/// brings.
pub fn walk<P: Opener>(
    alloc: Global,
    opener: &mut P,
    setting: &Setting,
    loading: &mut Loading,
) -> Result<(), LoadStop>
    requires machine { (P.seen opener.old).machine ≡ setting.now.machine }
    requires safe { IsSafe (P.seen opener.old).faces loading.old }
    ensures safe { OnOk result (IsSafe (P.seen opener.new).faces loading.new) }
    ensures walking { OnOk result (IsWalking loading.old loading.new) }
    ensures answer { (loaded : Loaded) → Stands (P.seen opener.old).faces loading.old loaded
        → IsWalked setting.now (P.seen opener.old) (P.seen opener.new) loading.old loading.new
        loaded result }
    ensures grew { OnlyGrew (P.seen opener.old) (P.seen opener.new) }
{
    'walk: while loading.targets.as_slice().len() < loading.count() {
        let Ok(needs) = next_needs(alloc, opener, loading) else {
            return Err(LoadStop::NoMemory);
        };
        match ask_all(alloc, opener, setting, loading, needs.as_slice()) {
            Ok(targets) => {
                if loading.targets.push(targets).is_err() {
                    return Err(LoadStop::NoMemory);
                }
            }
            Err(stop) => return Err(stop),
        }
    }
    Ok(())
}

/// A copy of the needs of the first object whose needs are not asked for yet.
fn next_needs<P: Opener>(
    alloc: Global,
    opener: &P,
    loading: &Loading,
) -> Result<List<Name>, NoMemory>
    requires safe { IsSafe (P.seen opener.now).faces loading.now }
    requires left { length loading.now.targets < length loading.now.objs }
    ensures needs { IfOk result (λ needs. AreNeedsOf (P.seen opener.now).faces loading.now (length
        loading.now.targets) needs) }
{
    let number = loading.targets.as_slice().len();
    let place = loading.objs.as_slice()[number].face;
    opener.faces()[place as usize].needs.copy(alloc)
}

/// Asks for the needs of that object, and answers where they went.
fn ask_all<P: Opener>(
    alloc: Global,
    opener: &mut P,
    setting: &Setting,
    loading: &mut Loading,
    needs: &[Name],
) -> Result<List<u32>, LoadStop>
    requires machine { (P.seen opener.old).machine ≡ setting.now.machine }
    requires safe { IsSafe (P.seen opener.old).faces loading.old }
    requires left { length loading.old.targets < length loading.old.objs }
    ensures safe { OnOk result (IsSafe (P.seen opener.new).faces loading.new) }
    ensures asking { OnOk result (IsAsking loading.old loading.new) }
    ensures count { IfOk result (λ ts. length ts ≡ length needs.now) }
    ensures below { IfOk result (λ ts. AreBelow (length loading.new.objs) ts) }
    ensures answer { (loaded : Loaded) → Stands (P.seen opener.old).faces loading.old loaded
        → AreAsked setting.now (P.seen opener.old) (P.seen opener.new) loading.new loaded (length
        loading.old.targets) needs.now result }
    ensures grew { OnlyGrew (P.seen opener.old) (P.seen opener.new) }
{
    let by = loading.targets.as_slice().len() as u32;
    let mut targets = List::new(alloc);
    for name in needs {
        let request = Request { by, name };
        match ask(alloc, opener, setting, loading, request) {
            Ok(target) => {
                if targets.push(target).is_err() {
                    return Err(LoadStop::NoMemory);
                }
            }
            Err(stop) => return Err(stop),
        }
    }
    Ok(targets)
}
