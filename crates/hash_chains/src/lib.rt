//! The hash functions of symbol names, and the chains of a System V hash table: whether they end,
//! and whether a symbol stands in one.
//!
//! System V gABI, Hash Table; the GNU hash function as the GNU tools have it.
#![tactic(auto)]

mod chains;
mod hashes;
mod laws;

pub use chains::Chains;
pub use hashes::{gnu_hash, sysv_hash};
pub use laws::hash_values;
