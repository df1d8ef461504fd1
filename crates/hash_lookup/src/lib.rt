//! What an object offers to a reference, found by the hash tables of its file.
//!
//! System V gABI, Hash Table; the GNU hash table as the GNU tools write it.
#![tactic(auto)]

mod buckets;
mod candidates;
mod copies;
mod finding;
mod gnu_chains;
mod laws;
mod steps;
mod sysv_chains;
mod tables;

pub use laws::bucket_of_three;
pub use load_model::{Class, NoMemory, Offers};
pub use steps::Steps;
pub use tables::Tables;
