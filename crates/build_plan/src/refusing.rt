//! Why a build stops, by what stopped one of its steps. Definitions: `specs/Refusals.antt`.

ghost use Rattle.std.specs.Prelude.{◌≡◌};
ghost use Rattle.build_plan.specs.Refusals.{stop_of_closure, stop_of_loads, stop_of_name};

use crate::stops::BuildStop;
use build_runs::LoadsStop;
use lib_closure::ClosureStop;
use name_layout::NameStop;
use refusals::{NameRefusal, Refusal, SplitRefusal};

pub fn stop_of_loads(stop: LoadsStop) -> BuildStop
    ensures { result ≡ stop_of_loads stop }
{
    match stop {
        LoadsStop::Refused(refusal) => BuildStop::Refused(Refusal::Load(refusal)),
        LoadsStop::Read => BuildStop::Read,
        LoadsStop::NoMemory => BuildStop::NoMemory,
    }
}

pub fn stop_of_closure(stop: ClosureStop) -> BuildStop
    ensures { result ≡ stop_of_closure stop }
{
    let refusal = match stop {
        ClosureStop::NoInterpreter(path) => SplitRefusal::NoInterpreter(path),
        ClosureStop::InterpreterUnlisted(path) => SplitRefusal::InterpreterUnlisted(path),
        ClosureStop::ProgramNeeded(path) => SplitRefusal::ProgramNeeded(path),
        ClosureStop::HostNameClash(name, a, b) => SplitRefusal::HostNameClash(name, a, b),
        ClosureStop::HostRpath(path) => SplitRefusal::HostRpath(path),
        ClosureStop::HostNeedsUnlisted(path, name) => SplitRefusal::HostNeedsUnlisted(path, name),
        ClosureStop::HostAlias(path, name) => SplitRefusal::HostAlias(path, name),
        ClosureStop::SplitNeed(path, name, a, b) => SplitRefusal::SplitNeed(path, name, a, b),
        ClosureStop::NoMemory => return BuildStop::NoMemory,
    };
    BuildStop::Refused(Refusal::Split(refusal))
}

pub fn stop_of_name(stop: NameStop) -> BuildStop
    ensures { result ≡ stop_of_name stop }
{
    let refusal = match stop {
        NameStop::OpenAlias(name, key) => NameRefusal::OpenAlias(name, key),
        NameStop::OpenNameOnHostList(name) => NameRefusal::OpenNameOnHostList(name),
        NameStop::TwoOpenNames(path, a, b) => NameRefusal::TwoOpenNames(path, a, b),
        NameStop::NameClash(name, a, b) => NameRefusal::NameClash(name, a, b),
        NameStop::BadFileName(name) => NameRefusal::BadFileName(name),
        NameStop::NoMemory => return BuildStop::NoMemory,
    };
    BuildStop::Refused(Refusal::Names(refusal))
}
