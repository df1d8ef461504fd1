//! The plan of a rewriting: what the new file is, or why there is none. The definitions are in
//! `specs/Rewriting.antt` and `specs/Stops.antt`.

ghost use Rattle.std.specs.Prelude.{◌≡◌, ◌+◌, ◌*◌, ◌<◌, ◌≤◌, ◌^◌, [], None, false, true, IfOk, length, nat_lt};
ghost use Rattle.std.specs.List.{list_any};
ghost use Rattle.answers.specs.Answers.{TellsBy};
ghost use Rattle.answers.specs.First.{some_where};
ghost use Rattle.byte_view.specs.Dynamic.{dynamic_entries, strings_at};
ghost use Rattle.byte_view.specs.Headers.{e_phnum};
ghost use Rattle.byte_view.specs.Sound.{IsReadFrom};
ghost use Rattle.byte_view.specs.declared.constants.TheConstants.{LONGEST_FILE, PN_XNUM};
ghost use Rattle.dyn_table.specs.Table.{IsTableOf};
ghost use Rattle.load_model.specs.Faces.{first_flaw};
ghost use Rattle.load_model.specs.SymbolFlaws.{symbol_count};
ghost use Rattle.strtab_grow.specs.Growth.{size_of};
ghost use Rattle.strtab_grow.specs.declared.texts.TheConstants.{TABLE_LIMIT};
ghost use Rattle.sym_tables.specs.ReadSymbols.{IsSymsOf};
ghost use Rattle.two_files.specs.Entries.{new_entries};
ghost use Rattle.version_tables.specs.VersionLists.{IsVersionsOf};
ghost use Rattle.elf_rewrite.specs.NewFile.{Fits, IsNewFile};
ghost use Rattle.elf_rewrite.specs.NewSegment.{headers_size, segment_addr};
ghost use Rattle.elf_rewrite.specs.NewTable.{grown_by, need_values, places_with};
ghost use Rattle.elf_rewrite.specs.NewTexts.{changed_texts, removes, wants_segment};
ghost use Rattle.elf_rewrite.specs.Pieces.{laid, length_of};
ghost use Rattle.elf_rewrite.specs.Rewriting.{IsSmallLayout, layout_by, rewriting};
ghost use Rattle.elf_rewrite.specs.declared.change.TheConstants.{HIGHEST_OLD_END};
ghost use Rattle.elf_rewrite.specs.Stops.{ends_high, segment_stop, stop_named, stop_of};

use crate::change::{Change, RewriteStop};
use crate::edit::Edit;
use crate::entries::new_entries;
use crate::layout::Layout;
use crate::overlap::first_overlap;
use crate::pieces::{push_table, segment_patches, segment_pieces};
use crate::places::{NewPlaces, name_place, need_places, need_values};
use crate::room::{lacks_header, lacks_room};
use crate::segments::{addr_above, segment_place_at};
use crate::texts::{changed_texts, removes};
use byte_view::Entry;
use byte_view::constants::{DT_RUNPATH, DT_SONAME, DT_STRTAB, LONGEST_FILE};
use dyn_table::{Dyn, strings_size, value_of};
use elf_headers::{Elf, Segment};
use load_model::{List, Name, NoMemory};
use std::alloc::Global;
use strtab_grow::{GrowStop, Grown};
use sym_tables::Syms;
use version_tables::Versions;

/// The edit that gives a file with a face the texts of a change.
///
/// `elf`, `table`, `syms` and `versions` are read from `bytes`. The change has a text for each need
/// and for each version that is asked, equal ones for asks of equal files; a soname only where
/// there is one; and texts that are UTF-8 without a zero.
#[tactic(auto, unfolding(crate::specs::Stops::stop_of), using(crate::proofs::Planned::rewriting_none))]
pub fn plan(
    alloc: Global,
    elf: &Elf,
    table: &Dyn,
    syms: &Syms,
    versions: &Versions,
    bytes: &[u8],
    change: &Change,
) -> Result<Edit, RewriteStop>
    requires face { first_flaw bytes.now ≡ None }
    requires headers { IsReadFrom elf.now bytes.now }
    requires table { IsTableOf table.now bytes.now }
    requires symbols { IsSymsOf syms.now bytes.now }
    requires versions { IsVersionsOf versions.now (symbol_count bytes.now) bytes.now }
    requires change { Fits change.now bytes.now }
    ensures stop { TellsBy stop_named result (stop_of bytes.now change.now) }
    ensures edit { IfOk result (λ e. e ≡ rewriting bytes.now change.now) }
    ensures new_file { IfOk result (λ e. IsNewFile bytes.now change.now (laid bytes.now e)) }
{
    let Ok(needs) = need_values(alloc, table.entries()) else {
        return Err(RewriteStop::NoMemory);
    };
    let Ok(texts) = changed_texts(alloc, table, versions, bytes, &needs, change) else {
        return Err(RewriteStop::NoMemory);
    };
    let adds = !texts.as_slice().is_empty();
    if !adds && !removes(table, bytes, change) {
        return Ok(unchanged(alloc, bytes));
    }
    let Ok(overlap) = first_overlap(alloc, elf, table, syms, versions, bytes) else {
        return Err(RewriteStop::NoMemory);
    };
    if let Some((m, n)) = overlap {
        return Err(RewriteStop::TableOverlap(m, n));
    }
    if adds {
        return extended(
            alloc,
            elf,
            table,
            versions,
            bytes,
            &needs,
            texts.as_slice(),
            change,
        );
    }
    match compacted(alloc, elf, table, bytes, &needs, change) {
        Ok(edit) => Ok(edit),
        Err(_) => Err(RewriteStop::NoMemory),
    }
}

/// Leaves the file as it is.
fn unchanged(alloc: Global, bytes: &[u8]) -> Edit
    ensures { result ≡ record { old_len = length bytes.now; patches = []; added = [] } }
{
    Edit::new(bytes.len(), List::new(alloc), List::new(alloc))
}

/// Writes the dynamic table anew where it stands, without new texts.
fn compacted(
    alloc: Global,
    elf: &Elf,
    table: &Dyn,
    bytes: &[u8],
    needs: &[u64],
    change: &Change,
) -> Result<Edit, NoMemory>
    requires headers { IsReadFrom elf.now bytes.now }
    requires table { IsTableOf table.now bytes.now }
    requires change { Fits change.now bytes.now }
    requires needs { needs.now ≡ need_values (dynamic_entries bytes.now) }
    requires still { wants_segment bytes.now change.now ≡ false }
    requires removes { removes bytes.now change.now ≡ true }
    ensures { IfOk result (λ e. e ≡ rewriting bytes.now change.now) }
{
    let Ok(grown) = Grown::plan(alloc, strings_size(table.entries()), &[]) else {
        return Err(NoMemory);
    };
    let at = strings_at(table);
    let entries = entries_of(alloc, table, bytes, &grown, needs, change, at)?;
    let mut patches = List::new(alloc);
    push_table(
        alloc,
        &mut patches,
        elf.segments(),
        table.capacity(),
        entries,
    )?;
    let added = List::new(alloc);
    Ok(Edit::new(bytes.len(), patches, added))
}

/// Adds a segment for new texts, unless there is a stop.
#[tactic(auto, unfolding(crate::specs::Stops::segment_stop))]
fn extended(
    alloc: Global,
    elf: &Elf,
    table: &Dyn,
    versions: &Versions,
    bytes: &[u8],
    needs: &[u64],
    texts: &[Name],
    change: &Change,
) -> Result<Edit, RewriteStop>
    requires headers { IsReadFrom elf.now bytes.now }
    requires table { IsTableOf table.now bytes.now }
    requires versions { IsVersionsOf versions.now (symbol_count bytes.now) bytes.now }
    requires change { Fits change.now bytes.now }
    requires needs { needs.now ≡ need_values (dynamic_entries bytes.now) }
    requires texts { texts.now ≡ changed_texts bytes.now change.now }
    requires adds { wants_segment bytes.now change.now ≡ true }
    ensures stop { TellsBy stop_named result (segment_stop bytes.now change.now) }
    ensures edit { IfOk result (λ e. e ≡ rewriting bytes.now change.now) }
{
    if lacks_room(elf, bytes) {
        return Err(RewriteStop::NoRoom);
    }
    if lacks_header(elf, bytes) {
        return Err(RewriteStop::TooManyHeaders);
    }
    match Grown::plan(alloc, strings_size(table.entries()), texts) {
        Ok(grown) => {
            match with_segment(alloc, elf, table, versions, bytes, needs, &grown, change) {
                Ok(edit) => within_limit(edit),
                Err(_) => Err(RewriteStop::NoMemory),
            }
        }
        Err(GrowStop::TooLong) => Err(RewriteStop::StringsTooLong),
        Err(GrowStop::NoMemory) => Err(RewriteStop::NoMemory),
    }
}

/// An edit whose new file is not too long.
fn within_limit(edit: Edit) -> Result<Edit, RewriteStop>
    ensures stop { TellsBy stop_named result (some_where (nat_lt LONGEST_FILE (length_of edit))
        (RewriteStop.TooLarge (length_of edit))) }
    ensures edit { IfOk result (λ e. e ≡ edit) }
{
    let len = edit.new_len() as u64;
    if len > LONGEST_FILE {
        return Err(RewriteStop::TooLarge(len));
    }
    Ok(edit)
}

/// Adds a segment for new texts.
#[tactic(auto, using(crate::proofs::Planned::asks_counted, crate::proofs::Wholeness::not_too_long))]
fn with_segment(
    alloc: Global,
    elf: &Elf,
    table: &Dyn,
    versions: &Versions,
    bytes: &[u8],
    needs: &[u64],
    grown: &Grown,
    change: &Change,
) -> Result<Edit, NoMemory>
    requires headers { IsReadFrom elf.now bytes.now }
    requires table { IsTableOf table.now bytes.now }
    requires versions { IsVersionsOf versions.now (symbol_count bytes.now) bytes.now }
    requires change { Fits change.now bytes.now }
    requires needs { needs.now ≡ need_values (dynamic_entries bytes.now) }
    requires adds { wants_segment bytes.now change.now ≡ true }
    requires low { list_any ends_high elf.now ≡ false }
    requires few { e_phnum bytes.now + 1 < PN_XNUM }
    requires grown { grown.now ≡ grown_by bytes.now change.now }
    requires small { size_of grown.now < TABLE_LIMIT }
    ensures { IfOk result (λ e. e ≡ rewriting bytes.now change.now) }
{
    let segments = elf.segments();
    let addr = segment_addr(segments, bytes);
    let at = addr + headers_size(segments, bytes);
    let entries = entries_of(alloc, table, bytes, grown, needs, change, at)?;
    let capacity = table.capacity();
    let layout = layout_with(segments, bytes, addr, grown.size(), &entries, capacity);
    let added = segment_pieces(alloc, bytes.len(), elf, table, grown, &layout, &entries)?;
    let files = change.files.as_slice();
    let patches = segment_patches(
        alloc, segments, versions, grown, files, &layout, capacity, entries,
    )?;
    Ok(Edit::new(bytes.len(), patches, added))
}

/// The layout of a segment at an address, with strings of a size and these entries, where there is
/// room for some at the old place.
#[tactic(auto, unfolding(crate::specs::NewSegment::segment_place), using(crate::proofs::Wholeness::not_too_long))]
fn layout_with(
    segments: &[Segment],
    bytes: &[u8],
    addr: u64,
    strings_size: u64,
    entries: &[Entry],
    capacity: usize,
) -> Layout
    requires headers { IsReadFrom segments.now bytes.now }
    requires addr { addr ≡ segment_addr bytes.now }
    requires low { addr ≤ HIGHEST_OLD_END + HIGHEST_OLD_END }
    requires few { e_phnum bytes.now + 1 < PN_XNUM }
    requires strings { strings_size < TABLE_LIMIT }
    requires entries { length entries.now < 2 ^ 33 }
    ensures layout { result ≡ layout_by bytes.now strings_size (length entries.now) capacity }
    ensures small { IsSmallLayout result }
{
    let headers_size = headers_size(segments, bytes);
    Layout {
        place: segment_place_at(segments, bytes, addr),
        addr,
        headers_size,
        strings_end: headers_size + strings_size,
        table_size: 16 * (entries.len() as u64 + 1),
        moved: capacity < entries.len() + 1,
    }
}

/// Where the strings begin in memory.
fn strings_at(table: &Dyn) -> u64
    ensures { result ≡ strings_at table.now.entries }
{
    value_of(DT_STRTAB, table.entries()).unwrap_or(0)
}

/// Where the new segment begins in memory.
#[tactic(auto, unfolding(crate::specs::NewSegment::segment_addr), using(crate::proofs::Wholeness::not_too_long))]
fn segment_addr(segments: &[Segment], bytes: &[u8]) -> u64
    requires headers { IsReadFrom segments.now bytes.now }
    requires low { list_any ends_high segments.now ≡ false }
    ensures addr { result ≡ segment_addr bytes.now }
    ensures low { result ≤ HIGHEST_OLD_END + HIGHEST_OLD_END }
{
    addr_above(segments, bytes.len())
}

/// The size of the new program headers.
#[tactic(auto, using(crate::proofs::Planned::read_count))]
fn headers_size(segments: &[Segment], bytes: &[u8]) -> u64
    requires headers { IsReadFrom segments.now bytes.now }
    requires few { e_phnum bytes.now + 1 < PN_XNUM }
    ensures { result ≡ headers_size bytes.now }
{
    56 * (segments.len() as u64 + 1)
}

/// The new entries, where the string table begins at an address.
#[tactic(auto, using(crate::proofs::TextSteps::needs_counted))]
fn entries_of(
    alloc: Global,
    table: &Dyn,
    bytes: &[u8],
    grown: &Grown,
    needs: &[u64],
    change: &Change,
    strings_at: u64,
) -> Result<Vec<Entry>, NoMemory>
    requires table { IsTableOf table.now bytes.now }
    requires change { Fits change.now bytes.now }
    requires needs { needs.now ≡ need_values (dynamic_entries bytes.now) }
    requires grown { grown.now ≡ grown_by bytes.now change.now }
    ensures { IfOk result (λ v. v.items ≡ new_entries (places_with bytes.now change.now strings_at)
        (dynamic_entries bytes.now)) }
{
    let soname = value_of(DT_SONAME, table.entries());
    let runpath = value_of(DT_RUNPATH, table.entries());
    let places = NewPlaces {
        needs: need_places(alloc, table, bytes, grown, needs, change.needs.as_slice())?,
        soname: name_place(table, bytes, grown, soname, &change.soname),
        runpath: name_place(table, bytes, grown, runpath, &change.runpath),
        strings_at,
        strings_size: grown.size(),
    };
    new_entries(alloc, &places, table.entries())
}
