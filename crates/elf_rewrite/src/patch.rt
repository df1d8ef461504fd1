//! What is written over a file and behind it.

use load_model::Text;

/// Bytes that are written over others at a place.
#[derive(Drop)]
pub struct Patch {
    pub at: usize,
    pub bytes: Text,
}

/// A part of a file that is made over another: bytes of the other, new ones, or zeros.
#[derive(Drop)]
pub enum Piece {
    Old { at: u64, len: u64 },
    New(Text),
    Zeros(u64),
}
