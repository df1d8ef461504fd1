//! Which texts each program and each bundled library gets in the directory.
//!
//! Said in `specs/Changing.antt`.
#![tactic(auto)]

mod changes;
mod changing;
mod file_tables;
mod files;
mod laws;
mod needs;
mod object_names;
mod run_paths;
mod unchanged;

pub use changes::Changes;
pub use changing::change_all;
pub use laws::unchanged_is_done;
pub use unchanged::is_unchanged;
