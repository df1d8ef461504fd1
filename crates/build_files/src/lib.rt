//! Builds of a document's cases: the programs of a case, loaded over files in memory.
#![tactic(auto)]

mod case;
mod loading;

pub use case::{BuildCase, Started};
pub use loading::runs_of;
