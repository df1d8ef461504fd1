//! A string table with new texts behind the old ones (System V gABI, String Table).
#![tactic(auto)]

mod grown;
#[cfg(test)]
mod tests;
mod texts;

pub use grown::{GrowStop, Grown};
