//! Objects, and the bytes that they are to have.

use crate::document::ObjectRow;
use case_files::has_pieces;
use case_rows::{Fault, decoded};
use std::alloc::Global;

/// Whether the object has the length and the bytes that are wanted.
pub fn is_as_wanted(alloc: Global, object: &[u8], row: &ObjectRow<'_>) -> Result<bool, Fault> {
    if object.len() as u64 != row.length {
        return Ok(false);
    }
    if let Some(digits) = row.hex {
        if object != decoded(alloc, digits)?.as_slice() {
            return Ok(false);
        }
    }
    has_pieces(alloc, object, row.pieces)
}
