//! The dynamic table of an ELF file, and its strings.
//!
//! System V gABI, Dynamic Section and String Table; the GNU tags are in the Linux Standard Base.
#![tactic(auto)]

mod faults;
mod flags;
mod laws;
mod segment;
mod strings;
mod table;
mod tags;

pub use byte_view::Entry;
pub use faults::DynFault;
pub use flags::{ObjectFlags, StateFlags};
pub use laws::first_entry_is_named;
pub use strings::strings_size;
pub use table::Dyn;
pub use tags::{has_tag, value_of};
