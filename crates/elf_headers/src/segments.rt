//! The program headers: which bytes of the file stand where in memory.

ghost use Rattle.std.specs.Prelude.{◌≡◌, ◌≤◌, length, IfOk};
ghost use Rattle.std.specs.List.{list_any, position_from};
ghost use Rattle.answers.specs.Answers.{TellsBy};
ghost use Rattle.byte_view.specs.HeaderFlaws.{first_below, has_bad_range, headers_end, is_alignment, is_cut, is_unmappable, segment_flaw};
ghost use Rattle.byte_view.specs.Headers.{headers, is_dynamic, is_interp, is_load};
ghost use Rattle.elf_headers.specs.Bounds.{bound_of};
ghost use Rattle.elf_headers.specs.Faults.{elf_fault_flaw};

use crate::faults::{ElfFault, flawed};
use crate::fields::{half, segment_at, xword};
use byte_view::Segment;
use byte_view::constants::{
    E_PHNUM_AT, E_PHOFF_AT, EHDR_SIZE, HIGHEST_END, LEAST_ALIGN, PHDR_SIZE, PT_DYNAMIC, PT_INTERP,
    PT_LOAD,
};
use byte_view::flaws::{NO_LOAD, SEGMENT_ORDER, SEGMENT_OVERLAP, SEGMENT_RANGE};
use std::alloc::{AllocError, Global};

/// The program headers, in order.
#[tactic(auto, unfolding(byte_view::specs::Headers::headers))]
pub(crate) fn read_segments(alloc: Global, bytes: &[u8]) -> Result<Vec<Segment>, AllocError>
    requires header { EHDR_SIZE ≤ length bytes.now }
    requires headers { headers_end bytes.now ≤ length bytes.now }
    ensures { IfOk result (λ segments. segments.items ≡ headers bytes.now) }
{
    let from = xword(bytes, E_PHOFF_AT);
    let count = u64::from(half(bytes, E_PHNUM_AT));
    (0..count)
        .map(|i| segment_at(bytes, from + u64::from(PHDR_SIZE) * i))
        .collect(alloc)
}

/// Whether it is a part of the file that is loaded.
pub(crate) fn is_load(s: &Segment) -> bool
    ensures { result ≡ is_load s.now }
{
    s.kind == PT_LOAD
}

/// Whether it has bytes that are read from the file, past the file's end.
fn is_cut(len: u64, s: &Segment) -> bool
    ensures { result ≡ is_cut len s.now }
{
    let is_read = s.kind == PT_LOAD || s.kind == PT_DYNAMIC || s.kind == PT_INTERP;
    is_read && u128::from(s.offset) + u128::from(s.filesz) > u128::from(len)
}

/// Whether it is an alignment of a loaded segment.
fn is_alignment(n: u64) -> bool
    ensures { result ≡ is_alignment n }
{
    n >= LEAST_ALIGN && n.is_power_of_two()
}

/// Whether there is no way to map it.
fn is_unmappable(s: &Segment) -> bool
    ensures { result ≡ is_unmappable s.now }
{
    if s.filesz > s.memsz || u128::from(s.vaddr) + u128::from(s.memsz) > u128::from(HIGHEST_END) {
        return true;
    }
    !is_alignment(s.align) || s.vaddr % s.align != s.offset % s.align
}

/// Whether it goes past the end of a file of this length, or can't be mapped.
fn has_bad_range(len: u64, s: &Segment) -> bool
    ensures { result ≡ has_bad_range len s.now }
{
    is_cut(len, s) || (is_load(s) && is_unmappable(s))
}

/// What bounds the address of the next loaded segment from below.
#[derive(Clone, Copy)]
enum Bound {
    /// The beginning of the segment before it.
    Beginning,
    /// The end of the segment before it.
    End,
}

impl Bound {
    fn of(self, s: &Segment) -> u128
        ensures { result ≡ bound_of self s.now }
    {
        match self {
            Bound::Beginning => u128::from(s.vaddr),
            Bound::End => u128::from(s.vaddr) + u128::from(s.memsz),
        }
    }
}

/// The first loaded segment whose address is below the bound that the loaded segment before it
/// sets.
#[tactic(auto, unfolding(byte_view::specs::HeaderFlaws::first_below))]
fn first_below(segments: &[Segment], bound: Bound) -> Option<usize>
    ensures { result ≡ first_below (bound_of bound) 0 0 segments.now }
{
    let mut low: u128 = 0;
    for (i, s) in segments.iter().enumerate() {
        if is_load(s) {
            if u128::from(s.vaddr) < low {
                return Some(i);
            }
            low = bound.of(s);
        }
    }
    None
}

/// The first header with bytes past the end of a file of this length, or that can't be mapped.
fn first_bad_range(len: u64, segments: &[Segment]) -> Option<usize>
    ensures { result ≡ position_from (has_bad_range len) 0 segments.now }
{
    segments.iter().position(|s| has_bad_range(len, s))
}

/// Whether anything is loaded.
fn has_load(segments: &[Segment]) -> bool
    ensures { result ≡ list_any is_load segments.now }
{
    segments.iter().any(|s| is_load(s))
}

/// Whether the segments can be loaded from a file of this length, one above the other.
#[tactic(auto, unfolding(byte_view::specs::HeaderFlaws::segment_flaw))]
pub(crate) fn check_segments(len: u64, segments: &[Segment]) -> Result<(), ElfFault>
    ensures { TellsBy elf_fault_flaw result (segment_flaw len segments.now) }
{
    if let Some(i) = first_bad_range(len, segments) {
        return Err(flawed(SEGMENT_RANGE, i as u64));
    }
    if !has_load(segments) {
        return Err(flawed(NO_LOAD, 0));
    }
    if let Some(i) = first_below(segments, Bound::Beginning) {
        return Err(flawed(SEGMENT_ORDER, i as u64));
    }
    if let Some(i) = first_below(segments, Bound::End) {
        return Err(flawed(SEGMENT_OVERLAP, i as u64));
    }
    Ok(())
}
