//! The symbols of a file with their names, versions and marks.
//!
//! System V gABI, Symbol Table.

ghost use Rattle.std.specs.Prelude.{◌≡◌, ◌<◌, ◌^◌, ℕ, List as Sequence, IfOk, length};
ghost use Rattle.hash_lookup.specs.Listed.{syms_with};
ghost use Rattle.load_model.specs.Faces.{sym_of};
ghost use Rattle.load_model.specs.VersionTables.{text_of};
ghost use Rattle.sym_tables.specs.ReadSymbols.{IsSymsOf};

use byte_view::constants::SHN_UNDEF;
use load_model::{List, Name, NoMemory, RawSym, Sym, Ver, has_value};
use std::alloc::Global;
use sym_tables::Syms;

/// The symbols of a file, each with a copy of its version.
pub(crate) fn syms_with(
    alloc: Global,
    syms: &Syms,
    versions: &[Ver],
    hidden: &[bool],
    bytes: &[u8],
) -> Result<List<Sym>, NoMemory>
    requires { IsSymsOf syms.now bytes.now }
    ensures symbols { IfOk result (λ list. list ≡ syms_with bytes.now syms.now.raw versions.now
        hidden.now) }
    ensures few { IfOk result (λ list. length list < 2 ^ 32) }
{
    let mut list = List::new(alloc);
    'symbols: for ((s, version), is_hidden) in syms.raw().iter().zip(versions).zip(hidden) {
        let name = Name::from_bytes(alloc, syms.name(bytes, s))?;
        list.push(sym_of(s, name, version.copy(alloc)?, *is_hidden))?;
    }
    Ok(list)
}

/// A symbol by its words, its name, its version, and whether it is hidden.
fn sym_of(s: &RawSym, name: Name, version: Ver, hidden: bool) -> Sym
    ensures { (file : Sequence ℕ) → name ≡ text_of file s.now.name
        → result ≡ sym_of file s.now version hidden }
{
    Sym {
        name,
        version,
        hidden,
        defined: s.section != SHN_UNDEF,
        value_set: has_value(s),
        binding: s.info / 16,
        kind: s.info % 16,
        visibility: s.other % 4,
    }
}
