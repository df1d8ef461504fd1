//! Why programs are not loaded. Definitions: `specs/Stops.antt`.

ghost use Rattle.std.specs.Prelude.{◌≡◌};
ghost use Rattle.build_runs.specs.Stops.{stop_of_load, stop_of_open, stop_of_replay, stop_of_search};

use load_model::{LoadRefusal, OpenFault};
use load_order::LoadStop;
use loader_replay::ReplayStop;
use search_paths::SearchStop;

/// Why programs are not loaded, or their versions are not met.
#[derive(Drop)]
pub enum LoadsStop {
    Refused(LoadRefusal),
    /// A read of the tree failed.
    Read,
    NoMemory,
}

/// Why a program that is not loaded, or whose versions are not met, stops the loading of all.
pub fn stop_of_replay(stop: ReplayStop) -> LoadsStop
    ensures { result ≡ stop_of_replay stop }
{
    match stop {
        ReplayStop::Load(stop) => stop_of_load(stop),
        ReplayStop::Unloaded { by, file } => {
            LoadsStop::Refused(LoadRefusal::VersionFileUnloaded(by, file))
        }
        ReplayStop::Unsatisfied { by, file, version } => {
            LoadsStop::Refused(LoadRefusal::UnsatisfiedVersion(by, file, version))
        }
        ReplayStop::NoMemory => LoadsStop::NoMemory,
    }
}

fn stop_of_load(stop: LoadStop) -> LoadsStop
    ensures { result ≡ stop_of_load stop }
{
    match stop {
        LoadStop::NoProgram(path) => LoadsStop::Refused(LoadRefusal::NoProgram(path)),
        LoadStop::MissingLibrary { name, by } => {
            LoadsStop::Refused(LoadRefusal::MissingLibrary(name, by))
        }
        LoadStop::RelativeNeed { name, by } => {
            LoadsStop::Refused(LoadRefusal::RelativeNeed(name, by))
        }
        LoadStop::TokenInNeed { name, by } => {
            LoadsStop::Refused(LoadRefusal::TokenInNeed(name, by))
        }
        LoadStop::TooManyObjects(path) => LoadsStop::Refused(LoadRefusal::TooManyObjects(path)),
        LoadStop::Search(stop) => stop_of_search(stop),
        LoadStop::NoMemory => LoadsStop::NoMemory,
    }
}

fn stop_of_search(stop: SearchStop) -> LoadsStop
    ensures { result ≡ stop_of_search stop }
{
    match stop {
        SearchStop::RelativeItem(item) => LoadsStop::Refused(LoadRefusal::RelativeItem(item)),
        SearchStop::TokenUnset(item) => LoadsStop::Refused(LoadRefusal::TokenUnset(item)),
        SearchStop::Open(fault) => stop_of_open(fault),
        SearchStop::NoMemory => LoadsStop::NoMemory,
    }
}

fn stop_of_open(fault: OpenFault) -> LoadsStop
    ensures { result ≡ stop_of_open fault }
{
    match fault {
        OpenFault::Read => LoadsStop::Read,
        OpenFault::Damaged { path, flaw } => {
            LoadsStop::Refused(LoadRefusal::Damaged(path, flaw))
        }
        OpenFault::NoMemory => LoadsStop::NoMemory,
    }
}
