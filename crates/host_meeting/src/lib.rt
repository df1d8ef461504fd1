//! Whether a host meets the record of a build, and the first demand that it does not meet.
//!
//! The demands are said in `specs/Meeting.antt` of `host_list`; what is answered, in
//! `specs/Verdicts.antt`.
#![tactic(auto)]

mod asks;
mod files;
mod finding;
mod found;
mod interps;
mod lib_places;
mod libs;
mod looks;
mod meeting;
mod misses;
mod named;
mod offered;
mod reaching;
mod same_files;
mod verdicts;
mod versions;

pub use meeting::host_meets;
pub use verdicts::{HostStop, Verdict};
