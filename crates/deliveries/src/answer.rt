//! What a command comes to: a text that is said, or files that are written.

use appdir_files::Item;
use load_model::{List, Text};
use path_text::Abs;

/// Files that are written, where, and the line that is said then.
#[derive(Drop)]
pub struct Whole {
    pub place: Abs,
    pub items: List<Item>,
    pub line: Text,
}

/// What a command comes to where nothing fails.
#[derive(Drop)]
pub enum Answer {
    Says(Text),
    Packs(Whole),
}
