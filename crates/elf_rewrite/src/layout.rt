//! Where the new segment begins, and where its parts stand: the program headers, the strings, and
//! the dynamic table where there is no room for it at its old place. The definitions are in
//! `specs/NewSegment.antt` and `specs/Rewriting.antt`.

/// The new segment, in the file and in memory.
#[derive(Clone, Copy)]
pub(crate) struct Layout {
    /// Where it begins in the file.
    pub place: u64,
    /// Where it begins in memory.
    pub addr: u64,
    /// The size of the program headers.
    pub headers_size: u64,
    /// Where the strings end, from the start of the segment.
    pub strings_end: u64,
    /// The size of the dynamic table, with its end.
    pub table_size: u64,
    /// Does the dynamic table stand in the segment?
    pub moved: bool,
}
