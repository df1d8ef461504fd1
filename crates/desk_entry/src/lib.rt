//! A desktop entry file: its lines, and what a build demands of its first group. The grammar is told
//! in `docs/FORMATS.md`; the definitions are `specs/Reading.antt` and `specs/Checking.antt`.
#![tactic(auto)]

mod checks;
mod cutting;
mod entries;
mod keys;
mod laws;
mod lines;
mod reading;
mod states;

pub use checks::{CheckFault, DeskKey, check_entry};
pub use entries::{Entries, Pair, exec_word, value_of};
pub use laws::one_reading;
pub use reading::{DeskFault, read_entry};
