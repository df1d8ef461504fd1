//! The report of a build.

use load_model::Text;

/// What references bind to, as a text; how many references it has, and how many of them bind.
#[derive(Drop)]
pub struct Report {
    pub text: Text,
    pub references: u32,
    pub bound: u32,
}
