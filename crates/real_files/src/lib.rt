//! A tree, a folder and a sink over the files and the standard output of this machine.
//!
//! What the system does is tested by the program `file_checks`; proved are counts of faults, and
//! what is open.
#![tactic(auto)]

mod counting;
mod folder;
mod sink;
mod tree;

pub use folder::RealOut;
pub use sink::RealSink;
pub use tree::RealTree;
