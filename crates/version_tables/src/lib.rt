//! The symbol versions of an ELF file: which version each symbol has, what the file defines, and
//! what it asks of other files.
//!
//! Linux Standard Base, Symbol Versioning.
#![tactic(auto)]

mod asked;
mod chains;
mod definitions;
mod faults;
mod indexes;
mod kept;
mod laws;
mod lists;
mod memory;
mod names;
mod needs;
mod records;
mod symbols;
mod tables;
mod versions;

pub use faults::VersionFault;
pub use laws::{records_follow_one_another, records_lie_at_sums};
pub use versions::{VersionParts, Versions};
