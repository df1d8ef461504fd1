//! The one DYNAMIC segment, and the entries that it has room for.

ghost use Rattle.std.specs.Prelude.{◌≡◌, ◌≤◌, ◌<◌, ◌+◌, ◌*◌, Some, length, IfOk, IfSome};
ghost use Rattle.std.specs.List.{find, position_from};
ghost use Rattle.answers.specs.Answers.{TellsBy};
ghost use Rattle.byte_view.specs.Dynamic.{dynamic_table};
ghost use Rattle.byte_view.specs.DynamicFlaws.{begins_at, segment_flaw_by, second_place};
ghost use Rattle.byte_view.specs.Headers.{file_end, is_dynamic};
ghost use Rattle.byte_view.specs.Memory.{range_in};
ghost use Rattle.byte_view.specs.Sound.{IsReadFrom};
ghost use Rattle.dyn_table.specs.Faults.{dyn_fault_flaw};
ghost use Rattle.dyn_table.specs.Table.{entry_in, table_in};

use crate::faults::{DynFault, flawed};
use byte_view::constants::{D_VAL_AT, DYN_SIZE, PT_DYNAMIC};
use byte_view::flaws::{DYNAMIC_PLACE, NO_DYNAMIC, TWO_DYNAMIC};
use byte_view::{Entry, u64_at};
use elf_headers::{Elf, Segment};
use std::alloc::{AllocError, Global};

/// Whether it is the dynamic table.
fn is_dynamic(s: &Segment) -> bool
    ensures { result ≡ is_dynamic s.now }
{
    s.kind == PT_DYNAMIC
}

fn first_dynamic(segments: &[Segment]) -> Option<Segment>
    ensures { result ≡ find is_dynamic segments.now }
{
    segments.iter().copied().find(|s| is_dynamic(s))
}

/// The number of the first DYNAMIC.
fn place_of_dynamic(segments: &[Segment]) -> Option<usize>
    ensures place { result ≡ position_from is_dynamic 0 segments.now }
    ensures bound { IfSome result (λ i. i < length segments.now) }
{
    segments.iter().position(|s| is_dynamic(s))
}

/// The number of the second DYNAMIC.
fn second_dynamic(segments: &[Segment]) -> Option<usize>
    ensures { result ≡ second_place is_dynamic segments.now }
{
    match place_of_dynamic(segments) {
        Some(first) => place_of_dynamic(&segments[first + 1..]).map(|later| first + 1 + later),
        None => None,
    }
}

/// Whether the segment's memory is backed, from the segment's own place in the file.
fn is_placed(elf: &Elf, s: &Segment) -> bool
    ensures { result ≡ begins_at s.now.offset (range_in elf.now s.now.vaddr s.now.filesz) }
{
    match elf.range(s.vaddr, s.filesz) {
        Some((from, _)) => from as u64 == s.offset,
        None => false,
    }
}

/// The DYNAMIC segment: the only one, with room for an entry, and loaded from where it says.
#[tactic(auto, unfolding(byte_view::specs::DynamicFlaws::place_flaw))]
fn dynamic_segment(elf: &Elf) -> Result<Segment, DynFault>
    ensures flaw { TellsBy dyn_fault_flaw result
        (segment_flaw_by elf.now (find is_dynamic elf.now)) }
    ensures found { IfOk result (λ s. find is_dynamic elf.now ≡ Some s) }
{
    let segments = elf.segments();
    let Some(segment) = first_dynamic(segments) else {
        return Err(flawed(NO_DYNAMIC, 0));
    };
    if let Some(i) = second_dynamic(segments) {
        return Err(flawed(TWO_DYNAMIC, i as u64));
    }
    if segment.filesz < DYN_SIZE || !is_placed(elf, &segment) {
        return Err(flawed(DYNAMIC_PLACE, 0));
    }
    Ok(segment)
}

/// The entry at a place.
#[tactic(auto, unfolding(crate::specs::Table::entry_in))]
fn entry_at(bytes: &[u8], at: u64) -> Entry
    requires { at + DYN_SIZE ≤ length bytes.now }
    ensures { result ≡ entry_in bytes.now at }
{
    Entry {
        tag: u64_at(bytes, at).unwrap(),
        value: u64_at(bytes, at + D_VAL_AT).unwrap(),
    }
}

/// All entries that the segment has room for, from its bytes in the file.
#[tactic(auto, unfolding(crate::specs::Table::table_in))]
fn read_entries(alloc: Global, bytes: &[u8], s: &Segment) -> Result<Vec<Entry>, AllocError>
    requires { file_end s.now ≤ length bytes.now }
    ensures { IfOk result (λ table. table.items ≡ table_in bytes.now s.now) }
{
    let from = s.offset;
    (0..s.filesz / DYN_SIZE)
        .map(|i| entry_at(bytes, from + DYN_SIZE * i))
        .collect(alloc)
}

/// All entries of the file's dynamic table, the end and what follows it too.
#[tactic(auto, using(crate::proofs::Placed::dynamic_within, crate::proofs::Placed::table_found))]
pub(crate) fn read_table(alloc: Global, elf: &Elf, bytes: &[u8]) -> Result<Vec<Entry>, DynFault>
    requires { IsReadFrom elf.now bytes.now }
    ensures flaw { TellsBy dyn_fault_flaw result
        (segment_flaw_by elf.now (find is_dynamic elf.now)) }
    ensures table { IfOk result (λ table. table.items ≡ dynamic_table bytes.now) }
{
    let segment = dynamic_segment(elf)?;
    match read_entries(alloc, bytes, &segment) {
        Ok(table) => Ok(table),
        Err(_) => Err(DynFault::NoMemory),
    }
}
