//! How many symbols a file has.

ghost use Rattle.std.specs.Prelude.{◌≡◌, ◌≤◌, ◌+◌, ◌*◌, length, IfOk, IfSome, Some};
ghost use Rattle.answers.specs.Answers.{TellsBy};
ghost use Rattle.byte_view.specs.Checks.{flaw};
ghost use Rattle.byte_view.specs.Headers.{e_shnum, e_shoff};
ghost use Rattle.load_model.specs.SymbolCount.{first_count, has_sections, is_section_of, section_count, section_places};
ghost use Rattle.load_model.specs.SymbolFlaws.{differing_counts, reach_past};
ghost use Rattle.std.specs.List.{find};
ghost use Rattle.sym_tables.specs.Counts.{counts_flaw};
ghost use Rattle.sym_tables.specs.Faults.{symbol_fault_flaw};

use crate::faults::{SymFault, flawed};
use crate::tags::symbols_at;
use byte_view::constants::{SHDR_SIZE, SHT_DYNSYM, SYM_SIZE};
use byte_view::flaws::{COUNT_DIFFERS, NO_SYMBOL_COUNT};
use byte_view::{Entry, Flaw};
use elf_headers::{half, word, xword};

/// Does the file have all of its section headers, and are they of the size that is read?
fn has_sections(bytes: &[u8]) -> bool
    requires { 64 ≤ length bytes.now }
    ensures { result ≡ has_sections bytes.now }
{
    let end = u128::from(xword(bytes, 40)) + 64 * u128::from(half(bytes, 60));
    half(bytes, 58) == SHDR_SIZE && end <= bytes.len() as u128
}

/// Is the section at a place one of dynamic symbols that begins at this address?
fn is_section_of(bytes: &[u8], addr: u64, at: u64) -> bool
    requires { at + 64 ≤ length bytes.now }
    ensures { result ≡ is_section_of bytes.now addr at }
{
    word(bytes, at + 4) == SHT_DYNSYM && xword(bytes, at + 16) == addr
}

/// The place of the first such section.
fn first_section(bytes: &[u8], addr: u64) -> Option<u64>
    requires header { 64 ≤ length bytes.now }
    requires sections { e_shoff bytes.now + 64 * e_shnum bytes.now ≤ length bytes.now }
    ensures found { result
        ≡ find (λ at. is_section_of bytes.now addr at) (section_places bytes.now) }
    ensures bound { IfSome result (λ at. at + 64 ≤ length bytes.now) }
{
    let from = xword(bytes, 40);
    (0..u64::from(half(bytes, 60)))
        .map(|i| from + 64 * i)
        .find(|at| is_section_of(bytes, addr, *at))
}

/// How many symbols the sections say that there are.
#[tactic(auto, unfolding(load_model::specs::SymbolCount::section_count))]
pub(crate) fn section_count(bytes: &[u8], entries: &[Entry]) -> Option<u64>
    requires { 64 ≤ length bytes.now }
    ensures { result ≡ section_count bytes.now entries.now }
{
    if !has_sections(bytes) {
        return None;
    }
    match first_section(bytes, symbols_at(entries)) {
        Some(at) => Some(xword(bytes, at + 32) / SYM_SIZE),
        None => None,
    }
}

/// The first count that there is.
fn first_count(section: Option<u64>, hash: Option<u64>, reach: Option<u64>) -> Option<u64>
    ensures { result ≡ first_count section hash reach }
{
    match (section, hash) {
        (Some(count), _) => Some(count),
        (None, Some(count)) => Some(count),
        (None, None) => reach,
    }
}

/// The flaw of two counts that differ.
fn differ(a: u64, b: u64) -> SymFault
    ensures { result ≡ SymFault.Flawed (flaw COUNT_DIFFERS a b) }
{
    SymFault::Flawed(Flaw {
        code: COUNT_DIFFERS,
        a,
        b,
    })
}

/// Do section and hash table say the same?
fn check_same(section: Option<u64>, hash: Option<u64>) -> Result<(), SymFault>
    ensures { TellsBy symbol_fault_flaw result (differing_counts section hash) }
{
    match (section, hash) {
        (Some(a), Some(b)) => { if a == b { Ok(()) } else { Err(differ(a, b)) } }
        _ => Ok(()),
    }
}

/// Does the GNU hash table reach no further than the symbols?
fn check_reach(count: u64, reach: Option<u64>) -> Result<(), SymFault>
    ensures { TellsBy symbol_fault_flaw result (reach_past count reach) }
{
    match reach {
        Some(reach) => {
            if count < reach {
                Err(differ(count, reach))
            } else {
                Ok(())
            }
        }
        None => Ok(()),
    }
}

/// How many symbols there are, if a source says it and none says otherwise.
#[tactic(auto, unfolding(crate::specs::Counts::counts_flaw))]
pub(crate) fn check_count(
    section: Option<u64>,
    hash: Option<u64>,
    reach: Option<u64>,
) -> Result<u64, SymFault>
    ensures flaw { TellsBy symbol_fault_flaw result (counts_flaw section hash reach) }
    ensures count { IfOk result (λ count. first_count section hash reach ≡ Some count) }
{
    let Some(count) = first_count(section, hash, reach) else {
        return Err(flawed(NO_SYMBOL_COUNT, 0));
    };
    check_same(section, hash)?;
    check_reach(count, reach)?;
    Ok(count)
}
