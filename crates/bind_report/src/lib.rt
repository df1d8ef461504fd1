//! The text of the file of bindings: which objects each program loads, what it opens, and what the
//! references of its objects bind to. Definition: `specs/Report.antt`.
#![tactic(auto)]

mod bindings;
mod fields;
mod programs;
mod texts;

pub use texts::report;
