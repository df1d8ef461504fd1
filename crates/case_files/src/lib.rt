//! The bytes of files of documents, among them those of objects of a shape.
#![tactic(auto)]

mod bytes;
mod shape;
mod tables;

pub use bytes::{altered, bytes_of, has_pieces, library_of, object_of};
pub use shape::shape_of;
pub use tables::{EACH_WAY, HashTables};
