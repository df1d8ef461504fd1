//! The runs of all programs of a build over one table of faces, or the first stop.
//!
//! ld.so(8), dlopen(3). What the runs are is said in `specs/BuildRuns.antt`, what stops them in
//! `specs/FirstStops.antt`.
#![tactic(auto)]

mod checking;
mod laws;
mod listing;
mod loading;
mod ordering;
mod programs;
mod stops;

pub use laws::{at_most_one_build, objects_are_files, runs_or_a_stop};
pub use loading::{LoadedRuns, load_all};
pub use programs::Start;
pub use stops::LoadsStop;
