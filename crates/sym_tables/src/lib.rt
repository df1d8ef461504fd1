//! The symbols of an ELF file, their count, and the two hash tables that list them by name.
//!
//! System V gABI, Symbol Table and Hash Table; the GNU hash table as the GNU tools write it.
#![tactic(auto)]

mod count;
mod faults;
mod gnu;
mod gnu_front;
mod gnu_reach;
mod gnu_table;
mod laws;
mod listing;
mod strings;
mod symbols;
mod sysv;
mod table;
mod tables;
mod tags;
mod words;

pub use byte_view::Flaw;
pub use faults::SymFault;
pub use gnu_table::{GnuTable, has_bit};
pub use hash_chains::{gnu_hash, sysv_hash};
pub use laws::{chain_is_list, each_table_lists, reach_is_least, reach_within_symbols};
pub use load_model::RawSym;
pub use sysv::SysvTable;
pub use table::Syms;
