//! The words of ELF files: numbers in bytes, headers, memory by address, the dynamic table, and the
//! flaws that keep a file from being read.
#![tactic(auto)]

pub mod constants;
mod dynamic;
mod flaw_names;
pub mod flaws;
mod numbers;
mod segments;

pub use dynamic::Entry;
pub use flaw_names::{Told, flaw_name, numbers_told};
pub use flaws::Flaw;
pub use numbers::{set_u16, set_u32, set_u64, u16_at, u32_at, u64_at};
pub use segments::Segment;
