//! Memory that stands in the file.

ghost use Rattle.std.specs.Prelude.{◌≡◌, MatchOption, false, is_some};
ghost use Rattle.byte_view.specs.Headers.{headers};
ghost use Rattle.byte_view.specs.Memory.{range_in};
ghost use Rattle.byte_view.specs.Sound.{IsReadFrom};
ghost use Rattle.version_tables.specs.Backed.{IsBacked};

use elf_headers::Elf;

/// Where the bytes at `size` addresses from `at` on begin in the file, if they stand there.
#[tactic(auto, using(crate::proofs::Backed::unbacked_there))]
pub(crate) fn backed(elf: &Elf, bytes: &[u8], at: u64, size: u64) -> Option<u64>
    requires { IsReadFrom elf.now bytes.now }
    ensures { MatchOption result (is_some (range_in (headers bytes.now) at size) ≡ false)
        (λ place. IsBacked bytes.now at size place) }
{
    match elf.range(at, size) {
        Some((from, _)) => Some(from as u64),
        None => None,
    }
}
