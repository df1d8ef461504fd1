//! What is decided of a configuration before any file is written: the load lists of its programs,
//! their split, and the names of the bundled libraries; or the first refusal. Definitions:
//! `specs/Building.antt` and `specs/Deciding.antt`.
#![tactic(auto)]

mod deciding;
mod plans;
mod refusing;
mod starts;
mod stops;

pub use deciding::decide;
pub use plans::Plan;
pub use stops::BuildStop;
