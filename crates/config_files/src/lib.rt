//! The configuration of a build, read from a file of the tree. Definitions: `specs/Configuring.antt`.
#![tactic(auto)]

mod configuring;

pub use configuring::config_at;
