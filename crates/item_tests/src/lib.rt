//! Tests of the crate of files that are written, in a crate of their own, so that it is proved once
//! and not once more with its tests.
#![tactic(auto)]

#[cfg(test)]
mod listing;
mod samples;
#[cfg(test)]
mod writing;

pub use samples::{BYTES, items, write_into};
