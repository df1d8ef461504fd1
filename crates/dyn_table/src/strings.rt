//! The string table, and the names that lie in it.

ghost use Rattle.std.specs.Prelude.{◌≡◌, ◌==◌, ◌≤◌, ◌<◌, ◌&&◌, Some, nat_le, length, drop, IfOk, IfSome, position};
ghost use Rattle.std.specs.List.{before_first, find, position_or_len};
ghost use Rattle.answers.specs.Answers.{TellsBy};
ghost use Rattle.byte_view.specs.Dynamic.{strings_at, strings_size};
ghost use Rattle.byte_view.specs.DynamicFlaws.{is_name, is_zero_byte, place_past_strings, strings_flaw};
ghost use Rattle.byte_view.specs.Memory.{range_in};
ghost use Rattle.byte_view.specs.Sound.{IsReadFrom};
ghost use Rattle.dyn_table.specs.Faults.{dyn_fault_flaw};

use crate::faults::{DynFault, flawed};
use crate::tags::value_of;
use byte_view::Entry;
use byte_view::constants::{DT_NEEDED, DT_RPATH, DT_RUNPATH, DT_SONAME, DT_STRSZ, DT_STRTAB};
use byte_view::flaws::{STRING_PLACE, STRINGS_END, STRINGS_RANGE};
use elf_headers::Elf;

/// Whether its value is the place of a name.
fn is_name(e: &Entry) -> bool
    ensures { result ≡ is_name e.now }
{
    e.tag == DT_NEEDED || e.tag == DT_SONAME || e.tag == DT_RPATH || e.tag == DT_RUNPATH
}

/// The string place of the first name that does not lie in the string table.
fn first_place_past(entries: &[Entry]) -> Option<u64>
    ensures { result ≡ place_past_strings entries.now }
{
    let size = strings_size(entries);
    entries
        .iter()
        .find(|e| is_name(e) && size <= e.value)
        .map(|e| e.value)
}

/// The address of the string table, or 0.
fn strings_at(entries: &[Entry]) -> u64
    ensures { result ≡ strings_at entries.now }
{
    value_of(DT_STRTAB, entries).unwrap_or(0)
}

/// The size of the string table, or 0.
pub fn strings_size(entries: &[Entry]) -> u64
    ensures { result ≡ strings_size entries.now }
{
    value_of(DT_STRSZ, entries).unwrap_or(0)
}

/// Whether the byte is there, and zero.
fn is_zero_byte(byte: Option<u8>) -> bool
    ensures { result ≡ is_zero_byte byte }
{
    match byte {
        Some(c) => c == 0,
        None => false,
    }
}

/// Where the string table begins and ends in the file, if it is one and all names lie in it.
#[tactic(auto, unfolding(byte_view::specs::DynamicFlaws::strings_flaw), using(crate::proofs::StringTable::range_limit))]
pub(crate) fn check_strings(
    elf: &Elf,
    bytes: &[u8],
    entries: &[Entry],
) -> Result<(usize, usize), DynFault>
    requires { IsReadFrom elf.now bytes.now }
    ensures flaw { TellsBy dyn_fault_flaw result (strings_flaw bytes.now elf.now entries.now) }
    ensures range { IfOk result (λ range.
        range_in elf.now (strings_at entries.now) (strings_size entries.now) ≡ Some range) }
{
    let at = strings_at(entries);
    let size = strings_size(entries);
    if size == 0 {
        return Err(flawed(STRINGS_RANGE, 0));
    }
    let Some(range) = elf.range(at, size) else {
        return Err(flawed(STRINGS_RANGE, 0));
    };
    if !is_zero_byte(elf.mem(bytes, at + (size - 1))) {
        return Err(flawed(STRINGS_END, 0));
    }
    if let Some(place) = first_place_past(entries) {
        return Err(flawed(STRING_PLACE, place));
    }
    Ok(range)
}

fn first_zero(bytes: &[u8]) -> Option<usize>
    ensures place { result ≡ position (λ c. c == 0) bytes.now }
    ensures bound { IfSome result (λ i. i < length bytes.now) }
{
    bytes.iter().position(|c| *c == 0)
}

/// How many bytes stand before the first zero byte.
#[tactic(auto, using(crate::proofs::StringTable::place_is, crate::proofs::StringTable::no_place))]
fn before_zero(bytes: &[u8]) -> usize
    ensures count { result ≡ position_or_len (λ c. c == 0) bytes.now }
    ensures bound { result ≤ length bytes.now }
{
    match first_zero(bytes) {
        Some(end) => end,
        None => bytes.len(),
    }
}

/// The bytes of a string table from a place up to the next zero byte.
pub(crate) fn text_at(strings: &[u8], at: usize) -> &[u8]
    requires { at < length strings.now }
    ensures { result.now ≡ before_first (λ c. c == 0) (drop at strings.now) }
{
    let rest = &strings[at..];
    &rest[..before_zero(rest)]
}
