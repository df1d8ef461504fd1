//! The headers of an ELF file, and its memory by address.
//!
//! System V gABI, ELF Header, Program Header and Program Loading; x86-64 psABI.
#![tactic(auto)]

mod faults;
mod fields;
mod headers;
mod ident;
mod laws;
mod segments;

pub use byte_view::Segment;
pub use faults::ElfFault;
pub use fields::{half, word, xword};
pub use headers::Elf;
pub use laws::{at_most_one_load_holds, first_below_is_named, loads_are_apart};
