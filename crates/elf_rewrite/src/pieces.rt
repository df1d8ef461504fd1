//! What is written over the old bytes, and what follows them. The definitions are in
//! `specs/Rewriting.antt`.

ghost use Rattle.std.specs.Prelude.{◌≡◌, ◌+◌, ◌-◌, ◌∷◌, ◌++◌, [], ◌<◌, ◌≤◌, ◌^◌, cond, IfOk, OnOk, length, map};
ghost use Rattle.std.specs.List.{enumerate_from, find, flat_map};
ghost use Rattle.byte_view.specs.Dynamic.{strings_at, strings_size, tagged, entries_bytes};
ghost use Rattle.byte_view.specs.Headers.{is_dynamic};
ghost use Rattle.byte_view.specs.Memory.{range_in};
ghost use Rattle.byte_view.specs.declared.constants.TheConstants.{DT_NULL};
ghost use Rattle.strtab_grow.specs.Growth.{added, size_of};
ghost use Rattle.strtab_grow.specs.declared.texts.TheConstants.{TABLE_LIMIT};
ghost use Rattle.elf_rewrite.specs.Rewriting.{IsSmallLayout, ask_file_in, file_patch, padded_entries, patches_by, pieces_by, strings_piece, table_patch, table_pieces};

use crate::entries::{end, pad};
use crate::files::push_files;
use crate::layout::Layout;
use crate::patch::{Patch, Piece};
use crate::segments::{first, new_headers};
use crate::words::{entries_bytes, half_patch, long_patch, table_bytes};
use byte_view::Entry;
use byte_view::constants::{DT_STRTAB, PT_DYNAMIC};
use dyn_table::{Dyn, strings_size, value_of};
use elf_headers::{Elf, Segment};
use load_model::{List, Name, NoMemory, Text};
use std::alloc::Global;
use strtab_grow::Grown;
use version_tables::Versions;

/// The words of the ELF header that say where the headers stand, those of files that versions are
/// needed of, and the dynamic table where it did not move.
pub(crate) fn segment_patches(
    alloc: Global,
    segments: &[Segment],
    versions: &Versions,
    grown: &Grown,
    files: &[Name],
    layout: &Layout,
    capacity: usize,
    entries: Vec<Entry>,
) -> Result<List<Patch>, NoMemory>
    requires few { length segments.now < 2 ^ 16 - 1 }
    requires small { size_of grown.now < TABLE_LIMIT }
    requires asks { length versions.now.ask_needs ≡ length versions.now.asks }
    requires files { length versions.now.ask_needs ≡ length files.now }
    ensures { IfOk result (λ ps. ps ≡ patches_by layout.now (length segments.now)
        (flat_map (λ p. file_patch grown.now p.1 (ask_file_in versions.now.ask_needs
        (map (λ a. a.file) versions.now.asks) files.now p.0))
        (enumerate_from 0 versions.now.file_words)) capacity entries.items
        (find is_dynamic segments.now)) }
{
    let mut patches = List::new(alloc);
    patches.push(long_patch(alloc, 32, layout.place)?)?;
    patches.push(half_patch(alloc, 56, segments.len() as u16 + 1)?)?;
    push_files(alloc, &mut patches, grown, versions, files)?;
    if !layout.moved {
        push_table(alloc, &mut patches, segments, capacity, entries)?;
    }
    Ok(patches)
}

/// Adds the dynamic table at its old place, with zeros up to its end.
pub(crate) fn push_table(
    alloc: Global,
    patches: &mut List<Patch>,
    segments: &[Segment],
    capacity: usize,
    entries: Vec<Entry>,
) -> Result<(), NoMemory>
    ensures { OnOk result (patches.new ≡ patches.old ++ table_patch capacity entries.items
        (find is_dynamic segments.now)) }
{
    match first(segments, PT_DYNAMIC) {
        Some(s) => {
            let bytes = padded_bytes(alloc, capacity, entries)?;
            patches.push(Patch {
                at: s.offset as usize,
                bytes,
            })
        }
        None => Ok(()),
    }
}

/// Entries with zeros up to a capacity, as bytes.
fn padded_bytes(alloc: Global, capacity: usize, entries: Vec<Entry>) -> Result<Text, NoMemory>
    ensures { IfOk result (λ text. text ≡ entries_bytes (padded_entries capacity entries.items)) }
{
    let mut entries = entries;
    pad(&mut entries, capacity)?;
    entries_bytes(alloc, &entries)
}

/// The new segment: a gap up to it, the program headers, the strings, and the dynamic table where
/// it moved.
pub(crate) fn segment_pieces(
    alloc: Global,
    len: usize,
    elf: &Elf,
    table: &Dyn,
    grown: &Grown,
    layout: &Layout,
    entries: &[Entry],
) -> Result<List<Piece>, NoMemory>
    requires layout { IsSmallLayout layout.now }
    requires small { size_of grown.now < TABLE_LIMIT }
    ensures { IfOk result (λ ps. ps ≡ pieces_by len layout.now elf.now
        (range_in elf.now (strings_at table.now.entries) (strings_size table.now.entries))
        (added grown.now.texts) entries.now) }
{
    let mut pieces = List::new(alloc);
    pieces.push(Piece::Zeros(layout.place.saturating_sub(len as u64)))?;
    let headers = new_headers(alloc, elf.segments(), layout)?;
    pieces.push(Piece::New(table_bytes(alloc, &headers)?))?;
    push_strings(&mut pieces, elf, table)?;
    pieces.push(Piece::New(added_bytes(alloc, grown)?))?;
    push_moved(alloc, &mut pieces, layout, entries)?;
    Ok(pieces)
}

/// Adds the old strings, as a part of the old file.
fn push_strings(pieces: &mut List<Piece>, elf: &Elf, table: &Dyn) -> Result<(), NoMemory>
    ensures { OnOk result (pieces.new ≡ pieces.old ++ strings_piece
        (range_in elf.now (strings_at table.now.entries) (strings_size table.now.entries))) }
{
    let at = value_of(DT_STRTAB, table.entries()).unwrap_or(0);
    match elf.range(at, strings_size(table.entries())) {
        Some((from, to)) => pieces.push(Piece::Old {
            at: from as u64,
            len: to.saturating_sub(from) as u64,
        }),
        None => Ok(()),
    }
}

/// The new strings, each with its zero.
fn added_bytes(alloc: Global, grown: &Grown) -> Result<Text, NoMemory>
    requires { size_of grown.now < TABLE_LIMIT }
    ensures { IfOk result (λ text. text ≡ added grown.now.texts) }
{
    let mut bytes = vec![in alloc; 0; grown.added_size() as usize]?;
    grown.fill(&mut bytes);
    Ok(Text::from_vec(bytes))
}

/// Adds the dynamic table where it moved, with its end, behind a gap.
fn push_moved(
    alloc: Global,
    pieces: &mut List<Piece>,
    layout: &Layout,
    entries: &[Entry],
) -> Result<(), NoMemory>
    requires { IsSmallLayout layout.now }
    ensures { OnOk result (pieces.new ≡ pieces.old ++ table_pieces layout.now entries.now) }
{
    if !layout.moved {
        return Ok(());
    }
    let start = layout.strings_end.next_multiple_of(8);
    pieces.push(Piece::Zeros(start - layout.strings_end))?;
    pieces.push(Piece::New(ended_bytes(alloc, entries)?))
}

/// Entries with their end, as bytes.
fn ended_bytes(alloc: Global, entries: &[Entry]) -> Result<Text, NoMemory>
    ensures { IfOk result (λ text. text ≡ entries_bytes (entries.now ++ tagged DT_NULL 0 ∷ [])) }
{
    let mut ended = Vec::from_slice(alloc, entries)?;
    end(&mut ended)?;
    entries_bytes(alloc, &ended)
}
