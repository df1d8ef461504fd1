//! Where a loader finds a name: the candidates of a request, one after the other, up to the first
//! that decides.
//!
//! ld.so(8). Run paths are said in `specs/RunPaths.antt` of `load_model`, candidates in its
//! `specs/Candidates.antt`.
#![tactic(auto)]

mod expanding;
mod hits;
mod looking;
mod run_paths;
mod searching;
mod tokens;

pub use hits::{Hit, SearchStop};
pub use searching::{search, search_dirs};
