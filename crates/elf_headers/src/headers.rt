//! The headers of a file, once they are known to have no flaw.

ghost use Rattle.std.specs.Prelude.{◌≡◌, ◌≤◌, ◌+◌, IfOk, IfSome};
ghost use Rattle.std.specs.List.{filter, find};
ghost use Rattle.answers.specs.Answers.{TellsBy};
ghost use Rattle.byte_view.specs.HeaderFlaws.{header_flaw};
ghost use Rattle.byte_view.specs.Headers.{file_end, headers};
ghost use Rattle.byte_view.specs.Memory.{backs, byte_of, file_range, holds, memory_at, memory_in, range_in, the_only};
ghost use Rattle.elf_headers.specs.Faults.{elf_fault_flaw};

use crate::faults::ElfFault;
use crate::ident::{check_ident, check_words};
use crate::segments::{check_segments, is_load, read_segments};
use byte_view::Segment;
use byte_view::constants::LONGEST_FILE;
use std::alloc::Global;
use std::marker::Model;

/// The program headers of a file whose headers have no flaw. The file's bytes are not kept.
#[derive(Drop)]
pub struct Elf {
    segments: Vec<Segment>,
}

impl Model for Elf {
    ghost use Rattle.std.specs.Prelude.{List};
    ghost use Rattle.byte_view.specs.declared.segments.Segment.{Segment};
    ghost use Rattle.elf_headers.specs.Usable.{AreUsable};

    ghost Value = { List Segment };

    ghost view = { λ elf. elf.segments.items };

    ghost invariant = { λ elf. AreUsable elf.segments.items };
}

impl Elf {
    /// Reads the ELF header and the program headers.
    ///
    /// Answers the first flaw of the headers, in the order of `docs/ELF.md`, or `NoMemory`.
    #[tactic(auto, unfolding(byte_view::specs::HeaderFlaws::header_flaw), using(crate::proofs::Usable::usable_segments))]
    pub fn read(alloc: Global, bytes: &[u8]) -> Result<Elf, ElfFault>
        ensures flaw { TellsBy elf_fault_flaw result (header_flaw bytes.now) }
        ensures segments { IfOk result (λ elf. elf ≡ headers bytes.now) }
    {
        check_ident(bytes)?;
        check_words(bytes)?;
        let Ok(segments) = read_segments(alloc, bytes) else {
            return Err(ElfFault::NoMemory);
        };
        check_segments(bytes.len() as u64, &segments)?;
        Ok(Elf { segments })
    }

    /// The program headers, as the file has them.
    pub fn segments(&self) -> &[Segment]
        ensures { result.now ≡ self.now }
    {
        &self.segments
    }

    /// The byte at an address, by the loaded segment that holds it: the file's below its file size,
    /// and 0 from there up to its memory size. `None` where no loaded segment holds the address.
    ///
    /// `bytes` are those that the headers were read from.
    #[tactic(auto, unfolding(byte_view::specs::Memory::memory_in))]
    pub fn mem(&self, bytes: &[u8], addr: u64) -> Option<u8>
        ensures value { result ≡ memory_in bytes.now self.now addr }
        ensures memory { self.now ≡ headers bytes.now → result ≡ memory_at bytes.now addr }
    {
        match self.holder(addr) {
            Some(segment) => byte_of(bytes, addr, &segment),
            None => None,
        }
    }

    /// The file places where `len` addresses from `addr` on begin and end, if one loaded segment
    /// has them all within its file size. `(0, 0)` for a `len` of 0.
    #[tactic(auto, unfolding(byte_view::specs::Memory::range_in))]
    pub fn range(&self, addr: u64, len: u64) -> Option<(usize, usize)>
        ensures { result ≡ range_in self.now addr len }
    {
        if len == 0 {
            return Some((0, 0));
        }
        match self.backer(addr, len) {
            Some(segment) => Some(file_range(addr, len, &segment)),
            None => None,
        }
    }

    /// The loaded segment that holds an address.
    #[tactic(auto, using(crate::proofs::Usable::holder_is_only, crate::proofs::Usable::holder_limits))]
    fn holder(&self, addr: u64) -> Option<Segment>
        ensures only { result ≡ the_only (filter (holds addr) self.now) }
        ensures limits { IfSome result (λ s. (s.vaddr ≤ addr) × (file_end s ≤ LONGEST_FILE)) }
    {
        first_holder(&self.segments, addr)
    }

    /// The loaded segment that has these addresses within its file size.
    #[tactic(auto, using(crate::proofs::Usable::backer_limits))]
    fn backer(&self, addr: u64, len: u64) -> Option<Segment>
        ensures first { result ≡ find (backs addr len) self.now }
        ensures limits { IfSome result (λ s.
            (s.vaddr ≤ addr) × (file_end s ≤ LONGEST_FILE) × (addr + len ≤ s.vaddr + s.filesz)) }
    {
        first_backer(&self.segments, addr, len)
    }
}

fn first_holder(segments: &[Segment], addr: u64) -> Option<Segment>
    ensures { result ≡ find (holds addr) segments.now }
{
    segments.iter().copied().find(|s| holds(addr, s))
}

fn first_backer(segments: &[Segment], addr: u64, len: u64) -> Option<Segment>
    ensures { result ≡ find (backs addr len) segments.now }
{
    segments.iter().copied().find(|s| backs(addr, len, s))
}

/// The file places where these addresses begin and end.
fn file_range(addr: u64, len: u64, s: &Segment) -> (usize, usize)
    requires low { s.now.vaddr ≤ addr }
    requires limit { file_end s.now ≤ LONGEST_FILE }
    requires high { addr + len ≤ s.now.vaddr + s.now.filesz }
    ensures { result ≡ file_range addr len s.now }
{
    let from = (s.offset + (addr - s.vaddr)) as usize;
    (from, from + len as usize)
}

/// Whether the address is one of the segment's in memory.
fn holds(addr: u64, s: &Segment) -> bool
    ensures { result ≡ holds addr s.now }
{
    is_load(s) && s.vaddr <= addr && addr - s.vaddr < s.memsz
}

/// The segment's byte there.
fn byte_of(bytes: &[u8], addr: u64, s: &Segment) -> Option<u8>
    requires low { s.now.vaddr ≤ addr }
    requires limit { file_end s.now ≤ LONGEST_FILE }
    ensures { result ≡ byte_of bytes.now addr s.now }
{
    if addr - s.vaddr < s.filesz {
        bytes.get((s.offset + (addr - s.vaddr)) as usize).copied()
    } else {
        Some(0)
    }
}

/// Whether these addresses are all within the segment's file size.
fn backs(addr: u64, len: u64, s: &Segment) -> bool
    ensures { result ≡ backs addr len s.now }
{
    is_load(s)
        && s.vaddr <= addr
        && u128::from(addr) + u128::from(len) <= u128::from(s.vaddr) + u128::from(s.filesz)
}
