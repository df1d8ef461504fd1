//! The load list of a program and the names that it opens.
//!
//! ld.so(8), dlopen(3). The load list is said in `specs/LoadList.antt` and `specs/Loads.antt` of
//! `load_model`.
#![tactic(auto)]

mod locals;
mod ordering;
mod phases;

pub use load_requests::LoadStop;
pub use ordering::load;
