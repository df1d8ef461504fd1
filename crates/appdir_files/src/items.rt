//! The files of a directory that is to be written, in order.

use load_model::Text;
use path_text::{Abs, Rel};

/// A file that is to be written: its target, whether it may be run, and where its bytes are.
#[derive(Drop)]
pub struct Item {
    pub path: Rel,
    pub executable: bool,
    pub body: Body,
}

/// The bytes of a file that is to be written.
#[derive(Drop)]
pub enum Body {
    /// These bytes.
    Bytes(Text),
    /// Those of the file at a path of the tree, of this length.
    Copy { from: Abs, len: u64 },
}
