//! Which file name each bundled library gets.
//!
//! Opened names are said in `specs/Openings.antt`, names in `specs/Layouts.antt`.
#![tactic(auto)]

mod free_names;
mod keys;
mod layouts;
mod libs;
mod name_sets;
mod naming;
mod opened;
mod opened_names;
mod opened_places;
mod opening_stops;
mod places;
mod stops;
mod taken;

pub use layouts::Layout;
pub use libs::Libs;
pub use naming::name_all;
pub use stops::NameStop;
