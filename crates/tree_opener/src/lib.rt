//! What a loader sees of the files of a tree: reading them, and the opener over it.
#![tactic(auto)]

mod faces;
mod opener;
mod reading;
mod selecting;
mod stops;

pub use opener::{TreeOpener, TreeView};
pub use reading::read_whole;
pub use stops::ReadStop;
