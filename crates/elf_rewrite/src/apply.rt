//! Patches, written over bytes.

ghost use Rattle.std.specs.Prelude.{◌≡◌, ◌≤◌, length};
ghost use Rattle.std.specs.List.{All};
ghost use Rattle.elf_rewrite.specs.Patched.{end_of, written, patched};

use crate::patch::Patch;

/// Writes each patch by turns. What no patch covers stays.
pub(crate) fn apply_all(buf: &mut [u8], patches: &[Patch])
    requires { All (λ p. end_of p ≤ length buf.old) patches.now }
    ensures { buf.new ≡ patched buf.old patches.now }
{
    for patch in patches {
        apply_one(buf, patch);
    }
}

/// Writes the bytes of one patch.
fn apply_one(buf: &mut [u8], patch: &Patch)
    requires { end_of patch.now ≤ length buf.old }
    ensures { buf.new ≡ written buf.old patch.now }
{
    let bytes = patch.bytes.as_bytes();
    let end = patch.at + bytes.len();
    buf[patch.at..end].copy_from_slice(bytes);
}
