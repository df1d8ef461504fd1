//! A configuration made into the files of a directory: rewritten programs and libraries, and the
//! texts about the build. Definition: `specs/Outcome.antt`.
#![tactic(auto)]

mod assembling;
mod bodies;
mod building;
mod built;
mod items;
mod laws;
mod preparing;
mod refusing;
mod sources;
mod writing;

pub use build_plan::BuildStop;
pub use building::build;
pub use built::Built;
pub use laws::{app_run_is_last, at_most_one_outcome};
