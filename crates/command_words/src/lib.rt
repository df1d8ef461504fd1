//! The words of a call, and the command that they have the shape of.
#![tactic(auto)]

mod commands;
mod forms;
mod values;
mod words;

pub use commands::{Build, Command, Gen, Host, Quick, Show};
pub use words::read_words;
