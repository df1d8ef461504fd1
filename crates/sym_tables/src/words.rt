//! Words that follow one another in a file.

ghost use Rattle.std.specs.Prelude.{◌≡◌, ◌≤◌, ◌+◌, ◌*◌, length, IfOk};
ghost use Rattle.sym_tables.specs.FileWords.{words_at};

use elf_headers::{word, xword};
use std::alloc::{AllocError, Global};

/// The words from a place on.
#[tactic(auto, unfolding(crate::specs::FileWords::words_at))]
pub(crate) fn words(
    alloc: Global,
    bytes: &[u8],
    from: u64,
    count: u64,
) -> Result<Vec<u32>, AllocError>
    requires { from + 4 * count ≤ length bytes.now }
    ensures { IfOk result (λ words. words.items ≡ words_at 4 bytes.now from count) }
{
    (0..count).map(|i| word(bytes, from + 4 * i)).collect(alloc)
}

/// The same of 64 bits.
#[tactic(auto, unfolding(crate::specs::FileWords::words_at))]
pub(crate) fn xwords(
    alloc: Global,
    bytes: &[u8],
    from: u64,
    count: u64,
) -> Result<Vec<u64>, AllocError>
    requires { from + 8 * count ≤ length bytes.now }
    ensures { IfOk result (λ words. words.items ≡ words_at 8 bytes.now from count) }
{
    (0..count)
        .map(|i| xword(bytes, from + 8 * i))
        .collect(alloc)
}
