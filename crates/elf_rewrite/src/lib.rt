//! Files rewritten in place: other names of needed libraries, another soname, another run path.
//!
//! System V gABI and Linux Standard Base; what is written is drawn in `docs/ELF.md`.
#![tactic(auto)]

mod apply;
mod change;
mod edit;
mod entries;
mod files;
mod fill;
mod laws;
mod layout;
pub mod numbering;
mod overlap;
mod patch;
mod pieces;
mod places;
mod planning;
mod room;
mod segments;
mod texts;
mod words;

pub use change::{Change, RewriteStop};
pub use edit::Edit;
pub use laws::{face_fits, new_file};
pub use planning::plan;
