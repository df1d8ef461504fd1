//! What a loader sees of a file: its interpreter, names, symbols and versions, or its first flaw.
//!
//! System V gABI, Program Interpreter, Dynamic Section and Symbol Table; the versions are in the
//! Linux Standard Base.
#![tactic(auto)]

mod entries;
mod face;
mod faults;
mod interp;
mod loaded;
mod parts;
mod symbols;
mod texts;
mod versions;

pub use face::read_face;
pub use faults::{FaceFault, flaw_of};
pub use load_model::{Face, Flaw};
pub use loaded::{Loaded, read_loaded};
pub use parts::Parts;
