//! The record of a build is what is read of its text, and of the file that has it: laws of
//! definitions, with no code.
#![tactic(auto)]

mod package_laws;
mod record_laws;

pub use package_laws::record_files_are_read_again;
pub use record_laws::{records_are_canonical, records_are_read_again};
