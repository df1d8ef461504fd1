//! Whether a segment can be added. The definitions are in `specs/Stops.antt`.

ghost use Rattle.std.specs.Prelude.{◌≡◌, ◌+◌, ◌≤◌, ◌||◌, length, nat_le};
ghost use Rattle.std.specs.List.{list_any};
ghost use Rattle.byte_view.specs.Headers.{e_phnum};
ghost use Rattle.byte_view.specs.Sound.{IsReadFrom};
ghost use Rattle.byte_view.specs.declared.constants.TheConstants.{PN_XNUM};
ghost use Rattle.elf_rewrite.specs.Stops.{ends_high, has_sections_outside};

use crate::segments::any_ends_high;
use byte_view::constants::{PN_XNUM, SHDR_SIZE};
use elf_headers::{Elf, half, xword};

/// Whether no segment can be added above the others, or the section headers do not all lie in the
/// file.
#[tactic(auto, using(crate::proofs::Wholeness::header_whole))]
pub(crate) fn lacks_room(elf: &Elf, bytes: &[u8]) -> bool
    requires { IsReadFrom elf.now bytes.now }
    ensures { result ≡ (list_any ends_high elf.now || has_sections_outside bytes.now) }
{
    any_ends_high(elf.segments()) || has_sections_outside(bytes)
}

/// Whether there are as many program headers as their number can say.
#[tactic(auto, using(crate::proofs::Wholeness::header_whole))]
pub(crate) fn lacks_header(elf: &Elf, bytes: &[u8]) -> bool
    requires { IsReadFrom elf.now bytes.now }
    ensures { result ≡ nat_le PN_XNUM (e_phnum bytes.now + 1) }
{
    u32::from(half(bytes, 56)) + 1 >= u32::from(PN_XNUM)
}

/// Whether there are section headers that do not all lie in the file.
fn has_sections_outside(bytes: &[u8]) -> bool
    requires { 64 ≤ length bytes.now }
    ensures { result ≡ has_sections_outside bytes.now }
{
    let count = half(bytes, 60);
    let end = u128::from(xword(bytes, 40)) + 64 * u128::from(count);
    half(bytes, 58) == SHDR_SIZE && count != 0 && end > bytes.len() as u128
}
