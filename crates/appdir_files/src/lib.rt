//! The files of a directory: which paths they may have, and how they are written into a folder.
#![tactic(auto)]

mod copying;
mod items;
mod listing;
mod path_sets;
mod stops;
mod writing;

pub use items::{Body, Item};
pub use listing::list;
pub use stops::{CopyStop, ListStop};
pub use writing::write_all;
