//! Limits of the loader's model.

/// The most objects of one load list.
pub const MOST_OBJECTS: usize = 1024;
