//! A configuration, read from a text: the keys of a TOML document, their kinds, and what each
//! demands. The format is told in `docs/FORMATS.md`; the definition is `specs/Reading.antt`.
#![tactic(auto)]

mod carried;
mod faults;
mod kinds;
mod laws;
mod lists;
mod reading;
mod started;
mod tables;
mod targets;

pub use faults::ConfigFault;
pub use laws::read_is_ready;
pub use reading::read_config;
