//! What is loaded.

use load_model::{List, Name};
use path_text::Abs;

/// A program, and the names that it opens, in order.
#[derive(Drop)]
pub struct Start {
    pub path: Abs,
    pub opens: List<Name>,
}
