//! The objects that the files of all asks of a load list name, at once.
//!
//! The file of an ask is said in `specs/VersionCheck.antt` of `load_model`.
#![tactic(auto)]

mod files;
mod known;

pub use files::files_of_run;
