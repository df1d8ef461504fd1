//! Cases of a document: files as a loader sees them, over an opener in memory, and the lines that a
//! case wants.
#![tactic(auto)]

mod case;
mod files;
mod making;
mod opening;
mod symbols;

pub use case::{Case, cases_of, name_of};
pub use making::{names_of, opener_of, path_of, program_of, setting_of, wanted_text};
pub use opening::FileOpener;
