//! The programs of a build in its directory at a place of another world, where they run the same:
//! laws of the definitions in `specs/`, with no code.
#![tactic(auto)]

mod place_laws;
mod run_laws;

pub use place_laws::{
    built_interpreters_are_there, built_programs_are_moved, built_programs_load_there,
};
pub use run_laws::built_programs_run_same;
