//! Rows of documents: tables that are read field by field, and why one cannot be read.
#![tactic(auto)]

mod digits;
mod fault;
mod row;

pub use digits::decoded;
pub use fault::Fault;
pub use row::{Row, text_of};
