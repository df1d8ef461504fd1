//! The run of a program as the loader has it: its load list, whose versions are all met, and what
//! its references bind to.
//!
//! ld.so(8); System V gABI, Shared Object Dependencies; Linux Standard Base, Symbol Versioning.
//! Runs and bindings are said in `specs/Replays.antt` and `specs/Bindings.antt` of `load_model`.
#![tactic(auto)]

mod asking;
mod bindings;
mod checked;
mod replaying;
mod stops;

pub use bindings::binds_of;
pub use checked::{check, load_checked};
pub use replaying::replay;
pub use stops::ReplayStop;
