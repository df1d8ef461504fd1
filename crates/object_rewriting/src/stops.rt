//! Why an object gets no new bytes.

use elf_rewrite::RewriteStop;

/// Why an object gets no new bytes.
#[derive(Clone, Copy, Debug, PartialEq, Eq)]
pub enum RewritingStop {
    /// The file cannot be rewritten. Want of memory is never told by this.
    Rewrite(RewriteStop),
    /// The file is not the one any more whose face was read before.
    Changed,
    /// A read failed.
    Read,
    /// Memory is refused.
    NoMemory,
}
