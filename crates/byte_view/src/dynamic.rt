//! Entries of the dynamic table.

/// An entry of the dynamic table.
///
/// System V gABI, Dynamic Section.
#[derive(Clone, Copy, Debug, PartialEq, Eq)]
pub struct Entry {
    /// What the value is, of the names that begin `DT_`.
    pub tag: u64,
    /// A number, an address or a string place, by the tag.
    pub value: u64,
}
