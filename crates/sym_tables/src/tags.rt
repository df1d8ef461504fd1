//! What the dynamic table says of the symbols.

ghost use Rattle.std.specs.Prelude.{◌≡◌};
ghost use Rattle.answers.specs.Answers.{TellsBy};
ghost use Rattle.load_model.specs.SymbolFlaws.{wrong_symbol_size};
ghost use Rattle.load_model.specs.SymbolTable.{symbols_at};
ghost use Rattle.sym_tables.specs.Faults.{symbol_fault_flaw};

use crate::faults::{SymFault, flawed};
use byte_view::Entry;
use byte_view::constants::{DT_SYMENT, DT_SYMTAB, SYM_SIZE};
use byte_view::flaws::ENTRY_SIZE;
use dyn_table::value_of;

/// The address of the symbols, or 0.
pub(crate) fn symbols_at(entries: &[Entry]) -> u64
    ensures { result ≡ symbols_at entries.now }
{
    value_of(DT_SYMTAB, entries).unwrap_or(0)
}

/// Is the size of a symbol the one that is read?
pub(crate) fn check_symbol_size(entries: &[Entry]) -> Result<(), SymFault>
    ensures { TellsBy symbol_fault_flaw result (wrong_symbol_size entries.now) }
{
    let size = value_of(DT_SYMENT, entries).unwrap_or(0);
    if size != SYM_SIZE {
        return Err(flawed(ENTRY_SIZE, size));
    }
    Ok(())
}
