//! The new program headers: the old ones, and the new segment behind the last that is loaded.
//!
//! System V gABI, Program Header; the definitions are in `specs/NewSegment.antt` and
//! `specs/Rewriting.antt`.

ghost use Rattle.std.specs.Prelude.{◌≡◌, ◌==◌, ◌&&◌, ◌+◌, ◌-◌, ◌<◌, ◌≤◌, ◌^◌, [], ◌∷◌, ◌++◌, cond, false, IfOk, OnOk, length};
ghost use Rattle.std.specs.List.{filter, find, list_any};
ghost use Rattle.byte_view.specs.Headers.{is_load, memory_end};
ghost use Rattle.byte_view.specs.Sound.{IsReadFrom};
ghost use Rattle.byte_view.specs.declared.constants.TheConstants.{LONGEST_FILE};
ghost use Rattle.two_files.specs.NewHeaders.{moved_to};
ghost use Rattle.elf_rewrite.specs.NewSegment.{addr_above, segment_place_at, top_of};
ghost use Rattle.elf_rewrite.specs.Rewriting.{IsSmallLayout, headers_by, moved_by, new_segment, segment_size};
ghost use Rattle.elf_rewrite.specs.Stops.{ends_high};

use crate::change::{HIGHEST_OLD_END, PAGE};
use crate::layout::Layout;
use byte_view::Segment;
use byte_view::constants::{PF_R, PF_W, PT_DYNAMIC, PT_LOAD, PT_PHDR};
use load_model::NoMemory;
use std::alloc::Global;

/// Where a segment ends in memory.
fn memory_end(s: &Segment) -> u128
    ensures { result ≡ memory_end s.now }
{
    u128::from(s.vaddr) + u128::from(s.memsz)
}

fn is_load(s: &Segment) -> bool
    ensures { result ≡ is_load s.now }
{
    s.kind == PT_LOAD
}

/// The first segment of a kind.
pub(crate) fn first(segments: &[Segment], kind: u32) -> Option<Segment>
    ensures { result ≡ find (λ s. s.kind == kind) segments.now }
{
    segments.iter().copied().find(|s| s.kind == kind)
}

/// Whether a segment ends too high in memory for another above it.
pub(crate) fn any_ends_high(segments: &[Segment]) -> bool
    ensures { result ≡ list_any ends_high segments.now }
{
    segments.iter().any(|s| is_load(s) && memory_end(s) > u128::from(HIGHEST_OLD_END))
}

/// Where the last of them ends in memory.
fn top_of(segments: &[Segment]) -> u128
    ensures { result ≡ top_of segments.now }
{
    let mut top = 0;
    for s in segments {
        if is_load(s) {
            top = memory_end(s).max(top);
        }
    }
    top
}

/// Where the new segment begins in memory, above the others and behind so many bytes in the file.
#[tactic(auto, using(crate::proofs::Lowness::above_low, crate::proofs::Lowness::addr_low))]
pub(crate) fn addr_above(segments: &[Segment], len: usize) -> u64
    requires low { list_any ends_high segments.now ≡ false }
    requires short { len ≤ LONGEST_FILE }
    ensures addr { result ≡ addr_above PAGE len segments.now (find is_load segments.now) }
    ensures low { result ≤ HIGHEST_OLD_END + HIGHEST_OLD_END }
{
    match first(segments, PT_LOAD) {
        Some(s) => {
            let behind = (len as u128 + u128::from(s.vaddr)).saturating_sub(u128::from(s.offset));
            let above = top_of(segments).max(behind);
            above.next_multiple_of(u128::from(PAGE)) as u64
        }
        None => 0,
    }
}

/// Where a segment at this address begins in the file.
#[tactic(auto, using(crate::proofs::Lowness::load_within))]
pub(crate) fn segment_place_at(segments: &[Segment], bytes: &[u8], addr: u64) -> u64
    requires headers { IsReadFrom segments.now bytes.now }
    requires addr { addr ≤ HIGHEST_OLD_END + HIGHEST_OLD_END }
    requires short { length bytes.now ≤ LONGEST_FILE }
    ensures place { result ≡ segment_place_at addr (find is_load segments.now) }
    ensures low { result < 2 ^ 63 }
{
    match first(segments, PT_LOAD) {
        Some(s) => (addr + s.offset).saturating_sub(s.vaddr),
        None => 0,
    }
}

/// The program headers with the new segment, and with those moved that stand in it.
#[tactic(auto, using(crate::proofs::HeaderSteps::begins, crate::proofs::HeaderSteps::ends))]
pub(crate) fn new_headers(
    alloc: Global,
    segments: &[Segment],
    layout: &Layout,
) -> Result<Vec<Segment>, NoMemory>
    requires { IsSmallLayout layout.now }
    ensures { IfOk result (λ v. v.items ≡ headers_by layout.now segments.now) }
{
    let mut out = Vec::new(alloc);
    let mut left = count_loads(segments);
    for s in segments {
        left = push_moved(&mut out, layout, left, s)?;
    }
    Ok(out)
}

fn count_loads(segments: &[Segment]) -> usize
    ensures { result ≡ length (filter is_load segments.now) }
{
    segments.iter().filter(|s| is_load(s)).count()
}

/// Adds a header, and behind the last segment that is loaded the new one. Answers how many of those
/// are left.
fn push_moved(
    out: &mut Vec<Segment>,
    layout: &Layout,
    left: usize,
    s: &Segment,
) -> Result<usize, NoMemory>
    requires { IsSmallLayout layout.now }
    ensures left { IfOk result (λ after. after ≡ left - cond (is_load s.now) 1 0) }
    ensures added { OnOk result (out.new.items ≡ out.old.items
        ++ (moved_by layout.now s.now ∷ cond (is_load s.now && left == 1) (new_segment layout.now
        ∷ []) [])) }
{
    push(out, moved(layout, s))?;
    if !is_load(s) {
        return Ok(left);
    }
    if left == 1 {
        push(out, new_segment(layout))?;
    }
    Ok(left.saturating_sub(1))
}

/// A header that stands where the part of the new segment is that it describes, or where it stood.
fn moved(layout: &Layout, s: &Segment) -> Segment
    requires { IsSmallLayout layout.now }
    ensures { result ≡ moved_by layout.now s.now }
{
    if s.kind == PT_PHDR {
        return moved_to(s, layout.place, layout.addr, layout.headers_size);
    }
    if layout.moved && s.kind == PT_DYNAMIC {
        let start = layout.strings_end.next_multiple_of(8);
        return moved_to(
            s,
            layout.place + start,
            layout.addr + start,
            layout.table_size,
        );
    }
    *s
}

fn moved_to(s: &Segment, offset: u64, addr: u64, size: u64) -> Segment
    ensures { result ≡ moved_to (record { offset = offset; addr = addr; size = size }) s.now }
{
    Segment {
        kind: s.kind,
        flags: s.flags,
        offset,
        vaddr: addr,
        paddr: addr,
        filesz: size,
        memsz: size,
        align: s.align,
    }
}

/// The size of the new segment.
pub(crate) fn segment_size(layout: &Layout) -> u64
    requires { IsSmallLayout layout.now }
    ensures { result ≡ segment_size layout.now }
{
    if layout.moved {
        layout.strings_end.next_multiple_of(8) + layout.table_size
    } else {
        layout.strings_end
    }
}

/// The header of the new segment.
fn new_segment(layout: &Layout) -> Segment
    requires { IsSmallLayout layout.now }
    ensures { result ≡ new_segment layout.now }
{
    let size = segment_size(layout);
    Segment {
        kind: PT_LOAD,
        flags: PF_R + PF_W,
        offset: layout.place,
        vaddr: layout.addr,
        paddr: layout.addr,
        filesz: size,
        memsz: size,
        align: PAGE,
    }
}

fn push(out: &mut Vec<Segment>, s: Segment) -> Result<(), NoMemory>
    ensures { OnOk result (out.new.items ≡ out.old.items ++ s ∷ []) }
{
    match out.push(s) {
        Ok(()) => Ok(()),
        Err(_) => Err(NoMemory),
    }
}
