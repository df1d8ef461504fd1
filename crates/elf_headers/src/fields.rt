//! Fields of the headers, by the standard's names for their widths.

ghost use Rattle.std.specs.Prelude.{◌≡◌, ◌≤◌, ◌+◌, length};
ghost use Rattle.byte_view.specs.Headers.{header_at};
ghost use Rattle.byte_view.specs.Numbers.{number_at};

use byte_view::constants::{
    P_ALIGN_AT, P_FILESZ_AT, P_FLAGS_AT, P_MEMSZ_AT, P_OFFSET_AT, P_PADDR_AT, P_VADDR_AT, PHDR_SIZE,
};
use byte_view::{Segment, u16_at, u32_at, u64_at};

/// The Elf64_Half at a place.
pub fn half(bytes: &[u8], at: u64) -> u16
    requires { at + 2 ≤ length bytes.now }
    ensures { result ≡ number_at 2 bytes.now at }
{
    u16_at(bytes, at).unwrap()
}

/// The Elf64_Word at a place.
pub fn word(bytes: &[u8], at: u64) -> u32
    requires { at + 4 ≤ length bytes.now }
    ensures { result ≡ number_at 4 bytes.now at }
{
    u32_at(bytes, at).unwrap()
}

/// The Elf64_Xword, Elf64_Addr or Elf64_Off at a place.
pub fn xword(bytes: &[u8], at: u64) -> u64
    requires { at + 8 ≤ length bytes.now }
    ensures { result ≡ number_at 8 bytes.now at }
{
    u64_at(bytes, at).unwrap()
}

/// The program header at a place.
#[tactic(auto, unfolding(byte_view::specs::Headers::header_at))]
pub(crate) fn segment_at(bytes: &[u8], at: u64) -> Segment
    requires { at + PHDR_SIZE ≤ length bytes.now }
    ensures { result ≡ header_at bytes.now at }
{
    Segment {
        kind: word(bytes, at),
        flags: word(bytes, at + P_FLAGS_AT),
        offset: xword(bytes, at + P_OFFSET_AT),
        vaddr: xword(bytes, at + P_VADDR_AT),
        paddr: xword(bytes, at + P_PADDR_AT),
        filesz: xword(bytes, at + P_FILESZ_AT),
        memsz: xword(bytes, at + P_MEMSZ_AT),
        align: xword(bytes, at + P_ALIGN_AT),
    }
}
