//! Requests of a load in progress: the program that begins it, and where each name goes.
//!
//! ld.so(8). Where requests go is said in `specs/Loads.antt` of `load_model`.
#![tactic(auto)]

mod known;
mod loading;
mod program;
mod requests;
mod stops;

pub use known::Known;
pub use loading::Loading;
pub use program::start;
pub use requests::{Request, ask};
pub use stops::LoadStop;
