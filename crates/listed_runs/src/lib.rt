//! Which load lists are on a list of names as a whole.
#![tactic(auto)]

mod fitting;

pub use fitting::is_all_listed;
