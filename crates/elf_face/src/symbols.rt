//! Symbols as a loader sees them.
//!
//! System V gABI, Symbol Table.

ghost use Rattle.std.specs.Prelude.{◌≡◌, IfOk};
ghost use Rattle.dyn_table.specs.Table.{IsTableOf};
ghost use Rattle.load_model.specs.Faces.{sym_of, syms_of};
ghost use Rattle.load_model.specs.SymbolFlaws.{symbol_count, symbols_of};
ghost use Rattle.load_model.specs.VersionTables.{hidden_of, versions_of};

use crate::texts::text_of;
use byte_view::constants::SHN_UNDEF;
use dyn_table::Dyn;
use load_model::{List, Name, NoMemory, RawSym, Sym, Ver, has_value};
use std::alloc::Global;

/// A symbol by its words, its version, and whether it is hidden.
fn sym_of(
    alloc: Global,
    table: &Dyn,
    bytes: &[u8],
    s: &RawSym,
    version: Ver,
    hidden: bool,
) -> Result<Sym, NoMemory>
    requires { IsTableOf table.now bytes.now }
    ensures { IfOk result (λ sym. sym ≡ sym_of bytes.now s.now version hidden) }
{
    Ok(Sym {
        name: Name::from_bytes(alloc, text_of(table, bytes, u64::from(s.name)))?,
        version,
        hidden,
        defined: s.section != SHN_UNDEF,
        value_set: has_value(s),
        binding: s.info / 16,
        kind: s.info % 16,
        visibility: s.other % 4,
    })
}

/// The symbols with their versions, of which each is given away to its symbol.
pub(crate) fn syms_of(
    alloc: Global,
    table: &Dyn,
    bytes: &[u8],
    symbols: &[RawSym],
    versions: Vec<Ver>,
    hidden: Vec<bool>,
) -> Result<List<Sym>, NoMemory>
    requires table { IsTableOf table.now bytes.now }
    requires symbols { symbols.now ≡ symbols_of bytes.now }
    requires versions { versions.items ≡ versions_of (symbol_count bytes.now) bytes.now }
    requires hidden { hidden.items ≡ hidden_of (symbol_count bytes.now) bytes.now }
    ensures { IfOk result (λ syms. syms ≡ syms_of bytes.now) }
{
    let mut syms = List::new(alloc);
    'symbols: for ((s, version), is_hidden) in symbols.iter().zip(versions).zip(hidden) {
        syms.push(sym_of(alloc, table, bytes, s, version, is_hidden)?)?;
    }
    Ok(syms)
}
