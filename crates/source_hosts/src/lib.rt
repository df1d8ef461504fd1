//! Whether the tree of a build meets what the build itself demands of a host: it is tried with the
//! setting of the build. Definition: `specs/Trying.antt`.
#![tactic(auto)]

mod trying;

pub use trying::try_source;
