//! What a loader sees in files, as lines that a document can want.
#![tactic(auto)]

mod faces;

pub use faces::{lines_text, push_line, told_text};
