//! Which objects of a build are host libraries, and which are bundled.
//!
//! The split is said in `specs/Splits.antt`, what keeps from it in `specs/Clashes.antt`.
#![tactic(auto)]

mod build;
mod bundled;
mod firsts;
mod hosts;
mod laws;
mod lists;
mod parts;
mod programs;
mod seen;
mod splits;
mod splitting;
mod stops;

pub use firsts::Firsts;
pub use laws::{splits_have_objects, splits_have_parts};
pub use lists::{all_seen, lists_of, programs_seen};
pub use seen::{LoadList, Seen};
pub use splits::{HostLib, Member, Split};
pub use splitting::split;
pub use stops::ClosureStop;
