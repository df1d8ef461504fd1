//! The list of the files of an AppDir, as a text.
#![tactic(auto)]

mod lines;

pub use lines::manifest_text;
