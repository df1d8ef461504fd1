//! Whether a host meets the record of a directory: what `host OUT [DIR ..]` comes to. Definitions:
//! `specs/Hosting.antt`.
#![tactic(auto)]

mod checking;
mod hosts;
mod laws;
mod records;
mod stops;

pub use checking::check_host;
pub use hosts::tree_meets;
pub use laws::one_host_check;
