//! What a made ELF file is to show a loader, and what follows from it before any place is known:
//! its versions, its strings, its symbols, and numbers as bytes.
#![tactic(auto)]

mod distinct;
pub mod numbers;
mod shape;
pub mod strings;
pub mod symbols;
mod texts;
pub mod versions;

pub use shape::{Export, Import, Shape};
