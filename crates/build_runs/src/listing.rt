//! The load lists of all programs, in order, over one opener.
//!
//! ld.so(8), dlopen(3). The answer is said in `specs/Loading.antt`.

ghost use Rattle.std.specs.Prelude.{◌≡◌, IfErr, IfOk};
ghost use Rattle.std.specs.List.{AllZip};
ghost use Rattle.answers.specs.Told.{WhereTold};
ghost use Rattle.build_runs.specs.Loading.{IsListFor, IsLoadsStop, IsSafeList};
ghost use Rattle.load_model.specs.Opening.{OnlyGrew};

use crate::programs::Start;
use load_model::{Opener, Run, Setting};
use load_order::{LoadStop, load};
use std::alloc::Global;

/// Loads all programs, up to the first that has no load list.
#[tactic(auto, using(crate::proofs::StopLemmas::lists_want_memory))]
pub fn load_runs<P: Opener>(
    alloc: Global,
    opener: &mut P,
    setting: &Setting,
    programs: &[Start],
) -> Result<Vec<Run>, LoadStop>
    requires { (P.seen opener.old).machine ≡ setting.now.machine }
    ensures safe { IfOk result
        (λ runs. AllZip (IsSafeList (P.seen opener.new).faces) programs.now runs.items) }
    ensures lists { IfOk result (λ runs. WhereTold (P.seen opener.old).told
        (λ world. AllZip (IsListFor setting.now world (P.seen opener.new).faces) programs.now
        runs.items)) }
    ensures stop { IfErr result (λ stop. IsLoadsStop setting.now (P.seen opener.old)
        (P.seen opener.new) programs.now stop) }
    ensures grew { OnlyGrew (P.seen opener.old) (P.seen opener.new) }
{
    let mut runs = Vec::new(alloc);
    for program in programs {
        match load(
            alloc,
            opener,
            setting,
            &program.path,
            program.opens.as_slice(),
        ) {
            Ok(run) => {
                match runs.push(run) {
                    Ok(()) => {}
                    Err(_) => return Err(LoadStop::NoMemory),
                }
            }
            Err(stop) => return Err(stop),
        }
    }
    Ok(runs)
}
