//! What lies in an AppDir beside programs, libraries and texts about the build: data files, the
//! icon and the desktop file. Definitions: `specs/Extras.antt` and `specs/Faults.antt`.
#![tactic(auto)]

mod checking;
mod copying;
mod extras;
mod launchers;
mod laws;
mod stems;

pub use extras::extra_items;
pub use laws::one_extra_fault;
