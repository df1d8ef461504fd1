//! Program headers.

/// A program header.
///
/// System V gABI, Program Header.
#[derive(Clone, Copy, Debug, PartialEq, Eq)]
pub struct Segment {
    /// What the segment is, of the names that begin `PT_`.
    pub kind: u32,
    /// Who may use its memory, of the names that begin `PF_`.
    pub flags: u32,
    /// Where its bytes begin in the file.
    pub offset: u64,
    /// Where its bytes begin in memory.
    pub vaddr: u64,
    /// Its physical address, where that matters.
    pub paddr: u64,
    /// How many bytes the file has.
    pub filesz: u64,
    /// How many bytes the memory has: the rest are zero.
    pub memsz: u64,
    /// What `offset` and `vaddr` are equal modulo.
    pub align: u64,
}
