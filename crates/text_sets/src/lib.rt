//! Texts without repeats, found by their hashes.
#![tactic(auto)]

mod texts;

pub use texts::TextSet;
