//! The symbols, as the file has them.

ghost use Rattle.std.specs.Prelude.{◌≡◌, ◌≤◌, ◌<◌, ◌^◌, ◌+◌, ◌*◌, length, map, IfOk, nat_le};
ghost use Rattle.std.specs.List.{position_from, range_with_len};
ghost use Rattle.answers.specs.Answers.{TellsBy};
ghost use Rattle.byte_view.specs.Sound.{IsReadFrom};
ghost use Rattle.load_model.specs.SymbolFlaws.{bad_symbol_name, unbacked_symbols};
ghost use Rattle.load_model.specs.SymbolTable.{symbol_of, symbols_in};
ghost use Rattle.sym_tables.specs.Faults.{symbol_fault_flaw};

use crate::faults::{SymFault, flawed};
use byte_view::constants::SYM_SIZE;
use byte_view::flaws::{SYMBOL_NAME, SYMBOL_RANGE};
use elf_headers::{Elf, half, word, xword};
use load_model::RawSym;
use std::alloc::{AllocError, Global};

/// The symbol at a place.
#[tactic(auto, unfolding(load_model::specs::SymbolTable::symbol_of), using(crate::proofs::RawSymbols::byte_is))]
fn symbol_at(bytes: &[u8], at: u64) -> RawSym
    requires { at + 24 ≤ length bytes.now }
    ensures { result ≡ symbol_of bytes.now at }
{
    RawSym {
        name: word(bytes, at),
        info: bytes[at as usize + 4],
        other: bytes[at as usize + 5],
        section: half(bytes, at + 6),
        value: xword(bytes, at + 8),
    }
}

/// So many symbols from a place on.
fn symbols_from(
    alloc: Global,
    bytes: &[u8],
    from: u64,
    count: u64,
) -> Result<Vec<RawSym>, AllocError>
    requires { from + 24 * count ≤ length bytes.now }
    ensures { IfOk result
        (λ symbols. symbols.items
        ≡ map (λ i. symbol_of bytes.now (from + 24 * i)) (range_with_len 0 count)) }
{
    (0..count)
        .map(|i| symbol_at(bytes, from + 24 * i))
        .collect(alloc)
}

/// So many symbols from an address on, if memory has them from the file.
#[tactic(auto, using(crate::proofs::RawSymbols::unbacked, crate::proofs::RawSymbols::backed, crate::proofs::RawSymbols::far_unbacked))]
pub(crate) fn read_symbols(
    alloc: Global,
    elf: &Elf,
    bytes: &[u8],
    addr: u64,
    count: u64,
) -> Result<Vec<RawSym>, SymFault>
    requires { IsReadFrom elf.now bytes.now }
    ensures flaw { TellsBy symbol_fault_flaw result (unbacked_symbols elf.now addr count) }
    ensures symbols { IfOk result (λ symbols. symbols.items
        ≡ symbols_in bytes.now elf.now addr count) }
    ensures few { IfOk result (λ symbols. length symbols.items < 2 ^ 32) }
{
    let Some(len) = count.checked_mul(SYM_SIZE) else {
        return Err(flawed(SYMBOL_RANGE, 0));
    };
    let Some((from, _)) = elf.range(addr, len) else {
        return Err(flawed(SYMBOL_RANGE, 0));
    };
    let Ok(symbols) = symbols_from(alloc, bytes, from as u64, count) else {
        return Err(SymFault::NoMemory);
    };
    Ok(symbols)
}

fn first_bad_name(size: u64, symbols: &[RawSym]) -> Option<usize>
    ensures { result ≡ position_from (λ s. nat_le size s.name) 0 symbols.now }
{
    symbols.iter().position(|s| size <= u64::from(s.name))
}

/// Are the names of all symbols in a string table of this size?
pub(crate) fn check_names(size: u64, symbols: &[RawSym]) -> Result<(), SymFault>
    ensures { TellsBy symbol_fault_flaw result (bad_symbol_name size symbols.now) }
{
    match first_bad_name(size, symbols) {
        Some(i) => Err(flawed(SYMBOL_NAME, i as u64)),
        None => Ok(()),
    }
}
