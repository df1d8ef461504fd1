//! The outside as three traits, a tree that is read, a folder that is written and a sink of printed
//! bytes, with forms of them in memory.
#![tactic(auto)]

mod calls;
mod faults;
mod folders;
mod mem_out;
mod mem_sink;
mod mem_tree;
mod sinks;
mod trees;

pub use faults::Failed;
pub use folders::{MemFile, OutDir, RootState};
pub use mem_out::MemOut;
pub use mem_sink::MemSink;
pub use mem_tree::{AddFault, MemTree};
pub use sinks::Sink;
pub use trees::{Found, ProbeStop, Tree};
