//! The load list of a program whose versions are all met.
//!
//! ld.so(8); Linux Standard Base, Symbol Versioning. The answer is said in `specs/Answering.antt`.

ghost use Rattle.std.specs.Prelude.{◌≡◌, Some};
ghost use Rattle.load_model.specs.Opening.{AreFew, OnlyGrew};
ghost use Rattle.load_model.specs.Runs.{IsRunOver};
ghost use Rattle.load_model.specs.VersionCheck.{first_unmet};
ghost use Rattle.loader_replay.specs.Answering.{IsCheckedAnswer};
ghost use Rattle.loader_replay.specs.Checking.{IsCheck, IsStopOf, NamesUnloaded, NamesUnsatisfied};
ghost use Rattle.scope_lookup.specs.Asking.{unmet_ask};

use crate::asking::asked_of;
use crate::stops::ReplayStop;
use load_model::{Ask, Face, Name, Obj, Opener, Run, Setting};
use load_order::load;
use path_text::Abs;
use scope_lookup::{VersionStop, check_versions};
use std::alloc::Global;

/// Loads a program and the names that it opens, in order, and checks the versions that its objects
/// ask for.
pub fn load_checked<P: Opener>(
    alloc: Global,
    opener: &mut P,
    setting: &Setting,
    start: &Abs,
    opens: &[Name],
) -> Result<Run, ReplayStop>
    requires { (P.seen opener.old).machine ≡ setting.now.machine }
    ensures answer { IsCheckedAnswer setting.now (P.seen opener.old) (P.seen opener.new) start.now
        opens.now result }
    ensures grew { OnlyGrew (P.seen opener.old) (P.seen opener.new) }
{
    match load(alloc, opener, setting, start, opens) {
        Ok(run) => match check(alloc, opener.faces(), &run) {
            Ok(()) => Ok(run),
            Err(stop) => Err(stop),
        },
        Err(stop) => Err(ReplayStop::Load(stop)),
    }
}

/// Whether the versions that the objects of a run ask for are there; else the first that is not.
pub fn check(alloc: Global, faces: &[Face], run: &Run) -> Result<(), ReplayStop>
    requires run { IsRunOver faces.now run.now }
    requires few { AreFew faces.now }
    ensures { IsCheck faces.now run.now result }
{
    match asked_of(alloc, faces, run) {
        Ok(asked) => match check_versions(faces, run, &asked) {
            Ok(()) => Ok(()),
            Err(stop) => Err(stop_of(alloc, faces, run, stop)),
        },
        Err(_) => Err(ReplayStop::NoMemory),
    }
}

/// The stop of an ask that is not met, with the path of the object that asks.
fn stop_of(alloc: Global, faces: &[Face], run: &Run, stop: VersionStop) -> ReplayStop
    requires run { IsRunOver faces.now run.now }
    requires few { AreFew faces.now }
    requires unmet { first_unmet faces.now run.now ≡ unmet_ask stop }
    ensures { IsStopOf faces.now run.now result }
{
    match stop {
        VersionStop::VersionFileUnloaded { obj, ask } => unloaded(
            alloc,
            &run.objs.as_slice()[obj as usize],
            &run.face_of(faces, obj).asks.as_slice()[ask as usize],
        ),
        VersionStop::UnsatisfiedVersion { obj, ask } => unsatisfied(
            alloc,
            &run.objs.as_slice()[obj as usize],
            &run.face_of(faces, obj).asks.as_slice()[ask as usize],
        ),
    }
}

/// The stop where the file of an ask is not loaded.
fn unloaded(alloc: Global, asker: &Obj, ask: &Ask) -> ReplayStop
    ensures { NamesUnloaded asker.now ask.now result }
{
    match (asker.path.copy(alloc), ask.file.copy(alloc)) {
        (Ok(by), Ok(file)) => ReplayStop::Unloaded { by, file },
        _ => ReplayStop::NoMemory,
    }
}

/// The stop where the file of an ask lacks the version.
fn unsatisfied(alloc: Global, asker: &Obj, ask: &Ask) -> ReplayStop
    ensures { NamesUnsatisfied asker.now ask.now result }
{
    match (
        asker.path.copy(alloc),
        ask.file.copy(alloc),
        ask.name.copy(alloc),
    ) {
        (Ok(by), Ok(file), Ok(version)) => ReplayStop::Unsatisfied { by, file, version },
        _ => ReplayStop::NoMemory,
    }
}
