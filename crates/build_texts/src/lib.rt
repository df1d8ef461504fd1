//! The texts about a build: what it demands of a host, and what each reference binds to; and where
//! objects are written. Definitions: `specs/Places.antt` and `specs/Texts.antt`.
#![tactic(auto)]

mod counts;
mod places;
mod reports;
mod texts;

pub use places::{lib_place, program_places};
pub use reports::Report;
pub use texts::{record_of_plan, report_of};
