//! The programs of a directory run everywhere as they run where they were packed: laws of
//! definitions, with no code. Definitions: `specs/Everywhere.antt`.
#![tactic(auto)]

mod laws;

pub use laws::{checked_hosts_run_packed_programs, packed_programs_run_same};
