//! Small ELF files for tests, byte for byte, from a description of what a loader sees in them, and a
//! tree of such files of any size.
#![tactic(auto)]

mod dynamic_table;
mod generator;
mod hash_tables;
mod headers;
mod object;
mod parts;
mod version_tables;

pub use elf_shape::{Export, Import, Shape};
pub use generator::make_tree;
pub use object::make_object;
