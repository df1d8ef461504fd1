//! What is to be changed in a file, and why it cannot be.

use load_model::{List, Name};

/// The texts that a file is to have.
#[derive(Drop)]
pub struct Change {
    /// The names of the needed libraries, in order.
    pub needs: List<Name>,
    /// The object's own name, where it has one and keeps one.
    pub soname: Option<Name>,
    /// The run path, where there is to be one.
    pub runpath: Option<Name>,
    /// For each version that is asked of a file, the name of that file.
    pub files: List<Name>,
}

/// Why a file cannot be rewritten.
#[derive(Clone, Copy, Debug, PartialEq, Eq)]
pub enum RewriteStop {
    /// Two of its tables share a place, by their numbers: 1 the ELF header, 2 the program headers,
    /// 3 the path of the interpreter, 4 the dynamic table, 5 the strings, 6 the symbols, 7 the
    /// version indexes, 8 the versions that are needed, 9 those that are defined, 10 the hash
    /// table, 11 the GNU hash table, 12 the section headers.
    TableOverlap(u8, u8),
    /// No segment can be added above the others, or the section headers do not all lie in the file.
    NoRoom,
    /// There would be more program headers than their number can say.
    TooManyHeaders,
    /// The places in the new string table would not all fit in 32 bits.
    StringsTooLong,
    /// The new file would have this length.
    TooLarge(u64),
    /// Memory is refused.
    NoMemory,
}

/// The page of the machine: a new segment begins with one, in the file and in memory.
pub const PAGE: u64 = 4096;

/// A file whose segments end above this in memory gets no further one.
pub const HIGHEST_OLD_END: u64 = 1 << 61;
