//! The record of a build, and what a host has to have so that it meets one.
//!
//! What is recorded is said in `specs/Recording.antt`, when a host meets a record in
//! `specs/Meeting.antt`; the text of a record is that of `host_record`.
#![tactic(auto)]

mod differences;
mod interps;
mod laws;
mod libs;
mod looks;
mod places;
mod recording;
mod scopes;
mod versions;

pub use differences::Difference;
pub use host_record::{
    Answer, Look, RecLib, RecVersion, Record, RecordFault, read_record, write_record,
};
pub use laws::splits_are_recordable;
pub use recording::record_of;
