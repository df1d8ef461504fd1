//! What is so of each build: the names of its objects, its runs, and its files as they are written:
//! laws of definitions, with no code.
#![tactic(auto)]

mod file_laws;
mod name_laws;

pub use file_laws::{built_files_keep_memory, runs_are_in_range};
pub use name_laws::names_of_objects;
