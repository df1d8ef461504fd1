//! The run of a program: its load list, whose versions are all met, with the bindings of all its
//! references.
//!
//! ld.so(8); System V gABI, Shared Object Dependencies. Runs are said in `specs/Replays.antt` of
//! `load_model`, the answer in `specs/Answering.antt`.

ghost use Rattle.std.specs.Prelude.{◌≡◌, IfOk};
ghost use Rattle.load_model.specs.Opening.{AreFew, OnlyGrew};
ghost use Rattle.load_model.specs.Runs.{IsRunOver};
ghost use Rattle.loader_replay.specs.Answering.{IsBound, IsReplayAnswer};

use crate::bindings::binds_of;
use crate::checked::load_checked;
use crate::stops::ReplayStop;
use load_model::{Face, Name, Opener, Replay, Run, Setting};
use path_text::{Abs, NoMemory};
use std::alloc::Global;

/// Loads a program and the names that it opens, in order, checks the versions that its objects ask
/// for, and binds all references.
pub fn replay<P: Opener>(
    alloc: Global,
    opener: &mut P,
    setting: &Setting,
    start: &Abs,
    opens: &[Name],
) -> Result<Replay, ReplayStop>
    requires { (P.seen opener.old).machine ≡ setting.now.machine }
    ensures answer { IsReplayAnswer setting.now (P.seen opener.old) (P.seen opener.new) start.now
        opens.now result }
    ensures grew { OnlyGrew (P.seen opener.old) (P.seen opener.new) }
{
    match load_checked(alloc, opener, setting, start, opens) {
        Ok(run) => match bound(alloc, opener.faces(), run) {
            Ok(replay) => Ok(replay),
            Err(_) => Err(ReplayStop::NoMemory),
        },
        Err(stop) => Err(stop),
    }
}

/// A load list with what its references bind to, by the faces themselves.
fn bound(alloc: Global, faces: &[Face], run: Run) -> Result<Replay, NoMemory>
    requires run { IsRunOver faces.now run }
    requires few { AreFew faces.now }
    ensures { IfOk result (λ replay. IsBound faces.now run replay) }
{
    let binds = binds_of(alloc, faces, faces, &run)?;
    Ok(Replay { run, binds })
}
