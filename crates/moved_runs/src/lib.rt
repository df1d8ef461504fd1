//! The same run of a program in another place, where each need is renamed to the name of the object
//! that it went to: laws of the definitions in `specs/`, with no code.
#![tactic(auto)]

mod core_laws;
mod place_laws;
mod run_laws;

pub use core_laws::{
    known_exactly, moved_run, named_target, same_loaders, same_local_lists, same_phases,
};
pub use place_laws::{
    apart_directories, moved_load_list, moved_program_opens_only, moved_search,
    run_paths_lead_to_libraries,
};
pub use run_laws::{moved_program_runs_same, small_directory_meets};
