//! Which tables of a file share a place. The definitions are in `specs/Ranges.antt`.
//!
//! Ends are counted in 128 bits, so that none wraps.

ghost use Rattle.std.specs.Prelude.{◌≡◌, ◌+◌, ◌*◌, ◌-◌, ◌<◌, ◌≤◌, [], ◌∷◌, ◌++◌, cond, IfOk, IsTrue, None, OnOk, is_some, length, map};
ghost use Rattle.std.specs.List.{find, flat_map, list_any};
ghost use Rattle.std.specs.Option.{unwrap_or};
ghost use Rattle.byte_view.specs.Dynamic.{strings_at, strings_size, value_of};
ghost use Rattle.byte_view.specs.Memory.{range_in};
ghost use Rattle.byte_view.specs.Sound.{IsReadFrom};
ghost use Rattle.byte_view.specs.declared.constants.TheConstants.{DT_VERSYM};
ghost use Rattle.dyn_table.specs.Table.{IsTableOf};
ghost use Rattle.load_model.specs.SymbolFlaws.{symbol_count};
ghost use Rattle.load_model.specs.SymbolTable.{symbols_at};
ghost use Rattle.sym_tables.specs.ReadSymbols.{IsSymsOf};
ghost use Rattle.version_tables.specs.VersionLists.{IsVersionsOf};
ghost use Rattle.elf_rewrite.specs.Ranges.{NoneMeet, ascends, beside, first_overlap, first_pair, from_place, meets, overlaps, ranges_of, section_range, segment_range, share, shares_within, single_range, ranges_of_table, table_range, where_known};

use crate::numbering::{
    DYNAMIC, GNU_HASH, HASH, HEADER, INTERP, SECTIONS, SEGMENTS, STRINGS, SYMBOLS, VERDEF, VERNEED,
    VERSYM,
};
use crate::segments::first;
use byte_view::Segment;
use byte_view::constants::{DT_STRTAB, DT_SYMTAB, DT_VERSYM, PT_DYNAMIC, PT_INTERP, SHDR_SIZE};
use dyn_table::{Dyn, strings_size, value_of};
use elf_headers::{Elf, half, xword};
use load_model::{List, NoMemory};
use std::alloc::Global;
use sym_tables::Syms;
use version_tables::Versions;

/// From its first byte up to behind its last.
type Range = (u128, u128);

/// The first two tables that share a place, by their numbers.
///
/// Where no two ranges of all tables share one, their order says so; only else each pair of tables
/// is tried.
#[tactic(auto, unfolding(crate::specs::Ranges::first_overlap))]
pub(crate) fn first_overlap(
    alloc: Global,
    elf: &Elf,
    table: &Dyn,
    syms: &Syms,
    versions: &Versions,
    bytes: &[u8],
) -> Result<Option<(u8, u8)>, NoMemory>
    requires headers { IsReadFrom elf.now bytes.now }
    requires table { IsTableOf table.now bytes.now }
    requires symbols { IsSymsOf syms.now bytes.now }
    requires versions { IsVersionsOf versions.now (symbol_count bytes.now) bytes.now }
    ensures { IfOk result (λ found. found ≡ first_overlap bytes.now) }
{
    let needs = need_ranges(alloc, versions.file_words())?;
    let asked = asked_ranges(alloc, versions.aux_places())?;
    let mut tables = List::new(alloc);
    for n in HEADER..SECTIONS + 1 {
        tables.push(ranges_of(alloc, elf, table, syms, versions, bytes, n)?)?;
    }
    if none_meet(alloc, tables.as_slice())? {
        return Ok(None);
    }
    Ok(first_pair(tables.as_slice(), needs.as_slice(), asked.as_slice()))
}

/// Whether no two of all these ranges share a place, where each lies behind those that begin before
/// it.
#[tactic(auto, using(crate::proofs::SweepLemmas::sorted_once))]
fn none_meet(alloc: Global, tables: &[List<Range>]) -> Result<bool, NoMemory>
    ensures { IfOk result (λ none. IsTrue none → NoneMeet (flat_map (λ t. t) tables.now)) }
{
    let mut all = Vec::new(alloc);
    for table in tables {
        push_all(&mut all, table.as_slice())?;
    }
    match all.sort() {
        Ok(()) => Ok(ascends(&all)),
        Err(_) => Err(NoMemory),
    }
}

fn push_all(out: &mut Vec<Range>, ranges: &[Range]) -> Result<(), NoMemory>
    ensures { OnOk result (out.new.items ≡ out.old.items ++ ranges.now) }
{
    match out.extend_from_slice(ranges) {
        Ok(()) => Ok(()),
        Err(_) => Err(NoMemory),
    }
}

/// Whether each range that has a place begins at or behind the ends of those before it.
fn ascends(ranges: &[Range]) -> bool
    ensures { result ≡ ascends 0 ranges.now }
{
    let mut end = 0;
    for r in ranges {
        if r.0 < end && r.0 < r.1 {
            return false;
        }
        end = r.1.max(end);
    }
    true
}

/// The first two of these tables that share a place.
#[tactic(auto, unfolding(crate::specs::Ranges::first_pair), using(crate::proofs::PairSteps::pair_found, crate::proofs::PairSteps::no_pair))]
fn first_pair(tables: &[List<Range>], needs: &[Range], asked: &[Range]) -> Option<(u8, u8)>
    ensures { result ≡ first_pair tables.now needs.now asked.now }
{
    for m in HEADER..SECTIONS + 1 {
        if let Some(n) = first_beside(tables, needs, asked, m) {
            return Some((m, n));
        }
    }
    None
}

/// The first table that shares a place with this one, from itself on.
fn first_beside(tables: &[List<Range>], needs: &[Range], asked: &[Range], m: u8) -> Option<u8>
    requires { m ≤ SECTIONS }
    ensures { result ≡ find (λ n. overlaps tables.now needs.now asked.now m n) (beside m) }
{
    (m..SECTIONS + 1).find(|n| overlaps(tables, needs, asked, m, *n))
}

/// Whether two tables share a place. Records of one table may, but for a need with another or with
/// what is asked.
fn overlaps(tables: &[List<Range>], needs: &[Range], asked: &[Range], m: u8, n: u8) -> bool
    ensures { result ≡ overlaps tables.now needs.now asked.now m n }
{
    if m == n {
        m == VERNEED && (shares_within(needs) || share(needs, asked))
    } else {
        share(ranges_of_table(tables, m), ranges_of_table(tables, n))
    }
}

fn ranges_of_table(tables: &[List<Range>], n: u8) -> &[Range]
    ensures { result.now ≡ ranges_of_table tables.now n }
{
    match tables.get((n.saturating_sub(1)) as usize) {
        Some(table) => table.as_slice(),
        None => &[],
    }
}

fn share(rs: &[Range], ss: &[Range]) -> bool
    ensures { result ≡ share rs.now ss.now }
{
    rs.iter().any(|r| meets_any(r, ss))
}

fn meets_any(r: &Range, ss: &[Range]) -> bool
    ensures { result ≡ list_any (λ s. meets r.now s) ss.now }
{
    ss.iter().any(|s| meets(r, s))
}

fn meets(r: &Range, s: &Range) -> bool
    ensures { result ≡ meets r.now s.now }
{
    r.0.max(s.0) < r.1.min(s.1)
}

fn shares_within(rs: &[Range]) -> bool
    ensures { result ≡ shares_within rs.now }
{
    for i in 0..rs.len() {
        if meets_any(&rs[i], &rs[i + 1..]) {
            return true;
        }
    }
    false
}

fn from_place(size: u64, at: u64) -> Range
    ensures { result ≡ from_place size at }
{
    let at = u128::from(at);
    (at, at + u128::from(size))
}

fn need_ranges(alloc: Global, words: &[u64]) -> Result<List<Range>, NoMemory>
    ensures { IfOk result (λ rs. rs ≡ map (λ at. from_place 16 (at - 4)) words.now) }
{
    let mut out = List::new(alloc);
    for word in words {
        out.push(from_place(16, word.saturating_sub(4)))?;
    }
    Ok(out)
}

fn asked_ranges(alloc: Global, places: &[u64]) -> Result<List<Range>, NoMemory>
    ensures { IfOk result (λ rs. rs ≡ map (λ at. from_place 16 at) places.now) }
{
    let mut out = List::new(alloc);
    for place in places {
        out.push(from_place(16, *place))?;
    }
    Ok(out)
}

fn definition_ranges(alloc: Global, places: &[(u64, u64)]) -> Result<List<Range>, NoMemory>
    ensures { IfOk result (λ rs. rs ≡ flat_map (λ p. from_place 20 p.0 ∷ from_place 8 p.1
        ∷ []) places.now) }
{
    let mut out = List::new(alloc);
    for x in places {
        out.push(from_place(20, x.0))?;
        out.push(from_place(8, x.1))?;
    }
    Ok(out)
}

/// The places of a table, by its number.
#[tactic(auto, unfolding(crate::specs::Ranges::ranges_of))]
fn ranges_of(
    alloc: Global,
    elf: &Elf,
    table: &Dyn,
    syms: &Syms,
    versions: &Versions,
    bytes: &[u8],
    n: u8,
) -> Result<List<Range>, NoMemory>
    requires headers { IsReadFrom elf.now bytes.now }
    requires table { IsTableOf table.now bytes.now }
    requires symbols { IsSymsOf syms.now bytes.now }
    requires versions { IsVersionsOf versions.now (symbol_count bytes.now) bytes.now }
    ensures { IfOk result (λ rs. rs ≡ ranges_of bytes.now n) }
{
    if n == VERNEED {
        return verneed_ranges(alloc, versions.file_words(), versions.aux_places());
    }
    if n == VERDEF {
        return definition_ranges(alloc, versions.def_places());
    }
    listed(alloc, single_range(elf, table, syms, bytes, n))
}

fn verneed_ranges(alloc: Global, words: &[u64], places: &[u64]) -> Result<List<Range>, NoMemory>
    ensures { IfOk result (λ rs. rs ≡ map (λ at. from_place 16 (at - 4)) words.now
        ++ map (λ at. from_place 16 at) places.now) }
{
    let mut out = need_ranges(alloc, words)?;
    for place in places {
        out.push(from_place(16, *place))?;
    }
    Ok(out)
}

fn listed(alloc: Global, range: Option<Range>) -> Result<List<Range>, NoMemory>
    ensures { IfOk result (λ rs. rs ≡ where_known range) }
{
    let mut out = List::new(alloc);
    if let Some(range) = range {
        out.push(range)?;
    }
    Ok(out)
}

/// The places of a table that stands in one piece.
#[tactic(auto, unfolding(crate::specs::Ranges::single_range), using(crate::proofs::Wholeness::header_whole))]
fn single_range(elf: &Elf, table: &Dyn, syms: &Syms, bytes: &[u8], n: u8) -> Option<Range>
    requires headers { IsReadFrom elf.now bytes.now }
    requires table { IsTableOf table.now bytes.now }
    requires symbols { IsSymsOf syms.now bytes.now }
    ensures { result ≡ single_range bytes.now n }
{
    match n {
        HEADER => Some(from_place(64, 0)),
        SEGMENTS => Some(from_place(56 * u64::from(half(bytes, 56)), xword(bytes, 32))),
        INTERP => segment_range(first(elf.segments(), PT_INTERP)),
        DYNAMIC => table_range(first(elf.segments(), PT_DYNAMIC)),
        STRINGS => strings_range(elf, table),
        SYMBOLS => symbols_range(elf, table, syms.count()),
        VERSYM => versym_range(elf, table, syms.count()),
        HASH => widened(syms.hash_range()),
        GNU_HASH => widened(syms.gnu_range()),
        SECTIONS => section_range(bytes),
        _ => None,
    }
}

fn segment_range(s: Option<Segment>) -> Option<Range>
    ensures { result ≡ segment_range s }
{
    match s {
        Some(s) => Some(from_place(s.filesz, s.offset)),
        None => None,
    }
}

fn table_range(s: Option<Segment>) -> Option<Range>
    ensures { result ≡ table_range s }
{
    match s {
        Some(s) => Some(from_place(16 * (s.filesz / 16), s.offset)),
        None => None,
    }
}

fn strings_range(elf: &Elf, table: &Dyn) -> Option<Range>
    ensures { result ≡ range_in elf.now (strings_at table.now.entries)
        (strings_size table.now.entries) }
{
    let at = value_of(DT_STRTAB, table.entries()).unwrap_or(0);
    widened(elf.range(at, strings_size(table.entries())))
}

fn symbols_range(elf: &Elf, table: &Dyn, count: u32) -> Option<Range>
    ensures { result ≡ range_in elf.now (symbols_at table.now.entries) (24 * count) }
{
    let at = value_of(DT_SYMTAB, table.entries()).unwrap_or(0);
    widened(elf.range(at, 24 * u64::from(count)))
}

fn versym_range(elf: &Elf, table: &Dyn, count: u32) -> Option<Range>
    ensures { result ≡ cond (is_some (value_of DT_VERSYM table.now.entries))
        (range_in elf.now (unwrap_or (value_of DT_VERSYM table.now.entries) 0) (2 * count)) None }
{
    match value_of(DT_VERSYM, table.entries()) {
        Some(at) => widened(elf.range(at, 2 * u64::from(count))),
        None => None,
    }
}

fn section_range(bytes: &[u8]) -> Option<Range>
    requires { 64 ≤ length bytes.now }
    ensures { result ≡ section_range bytes.now }
{
    let count = u64::from(half(bytes, 60));
    let range = from_place(64 * count, xword(bytes, 40));
    let within = range.1 <= bytes.len() as u128;
    if half(bytes, 58) == SHDR_SIZE && within && count != 0 {
        Some(range)
    } else {
        None
    }
}

fn widened(range: Option<(usize, usize)>) -> Option<Range>
    ensures { result ≡ range }
{
    match range {
        Some((from, to)) => Some((from as u128, to as u128)),
        None => None,
    }
}
