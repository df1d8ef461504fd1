//! A host that meets the record of a build has its libraries, and these answer as those here: laws of
//! definitions, with no code.
#![tactic(auto)]

mod host_laws;

pub use host_laws::recorded_libraries_are_there;
