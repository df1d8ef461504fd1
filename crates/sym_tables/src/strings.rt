//! The string table, where the names of symbols lie.
//!
//! System V gABI, String Table.

ghost use Rattle.std.specs.Prelude.{◌≡◌, ◌==◌, ◌≤◌, ◌<◌, IfSome, [], length, position};
ghost use Rattle.std.specs.List.{position_or_len};
ghost use Rattle.std.specs.Option.{unwrap_or};
ghost use Rattle.byte_view.specs.Dynamic.{strings_at, text_in};
ghost use Rattle.byte_view.specs.Sound.{IsReadFrom};
ghost use Rattle.dyn_table.specs.Table.{IsTableOf};
ghost use Rattle.sym_tables.specs.ReadSymbols.{AreStringsAt};

use byte_view::Entry;
use byte_view::constants::DT_STRTAB;
use dyn_table::{Dyn, strings_size, value_of};
use elf_headers::Elf;

/// The address of the string table, or 0.
fn strings_at(entries: &[Entry]) -> u64
    ensures { result ≡ strings_at entries.now }
{
    value_of(DT_STRTAB, entries).unwrap_or(0)
}

/// Where the string table begins and ends in the file.
#[tactic(auto, using(crate::proofs::StringRangeLemmas::no_range_lost, crate::proofs::StringRangeLemmas::strings_found))]
pub(crate) fn strings_range(elf: &Elf, table: &Dyn, bytes: &[u8]) -> (usize, usize)
    requires elf { IsReadFrom elf.now bytes.now }
    requires table { IsTableOf table.now bytes.now }
    ensures { AreStringsAt result bytes.now }
{
    let entries = table.entries();
    let Some(range) = elf.range(strings_at(entries), strings_size(entries)) else {
        unreachable!();
    };
    range
}

fn first_zero(bytes: &[u8]) -> Option<usize>
    ensures place { result ≡ position (λ c. c == 0) bytes.now }
    ensures bound { IfSome result (λ i. i < length bytes.now) }
{
    bytes.iter().position(|c| *c == 0)
}

/// How many bytes stand before the first zero byte.
#[tactic(auto, using(dyn_table::proofs::StringTable::place_is, dyn_table::proofs::StringTable::no_place))]
fn length_before_zero(bytes: &[u8]) -> usize
    ensures count { result ≡ position_or_len (λ c. c == 0) bytes.now }
    ensures bound { result ≤ length bytes.now }
{
    match first_zero(bytes) {
        Some(end) => end,
        None => bytes.len(),
    }
}

/// The text at a place of a string table, empty where the table ends before it.
pub(crate) fn text_in(strings: &[u8], at: u32) -> &[u8]
    ensures { result.now ≡ unwrap_or (text_in strings.now at) [] }
{
    let at = at as usize;
    if at < strings.len() {
        let rest = &strings[at..];
        &rest[..length_before_zero(rest)]
    } else {
        &[]
    }
}
