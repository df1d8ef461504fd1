//! Do the hash tables list each symbol that other objects may bind to?

ghost use Rattle.std.specs.Prelude.{◌≡◌, slice_get};
ghost use Rattle.answers.specs.Answers.{TellsBy};
ghost use Rattle.dyn_table.specs.Table.{IsTableOf};
ghost use Rattle.load_model.specs.SymbolFlaws.{broken_hash, first_lost, is_listed, is_lost, is_offerable, name_in};
ghost use Rattle.load_model.specs.SymbolWords.{has_bindable_words};
ghost use Rattle.sym_tables.specs.Faults.{symbol_fault_flaw};
ghost use Rattle.sym_tables.specs.FoundTables.{HasBucket};
ghost use Rattle.sym_tables.specs.Listing.{file_strings, gnu_of, sysv_of};

use crate::faults::{SymFault, flawed};
use crate::tables::Tables;
use byte_view::flaws::HASH_BROKEN;
use dyn_table::Dyn;
use hash_chains::{gnu_hash, sysv_hash};
use load_model::{RawSym, has_value, is_bindable};

/// Is the symbol one that other objects may bind to?
fn may_bind(s: &RawSym) -> bool
    ensures { result ≡ has_bindable_words s.now }
{
    is_bindable(s.info / 16, s.info % 16, s.other % 4, has_value(s))
}

/// The same of the symbol with an index; the first is none.
fn is_offerable(i: usize, s: &RawSym) -> bool
    ensures { result ≡ is_offerable i s.now }
{
    i != 0 && may_bind(s)
}

/// The name of a symbol.
#[tactic(auto, unfolding(byte_view::specs::Dynamic::string_at))]
fn name_of<'a>(dynamic: &Dyn, bytes: &'a [u8], s: &RawSym) -> &'a [u8]
    requires { IsTableOf dynamic.now bytes.now }
    ensures { result.now ≡ name_in (file_strings bytes.now) s.now }
{
    match dynamic.text(bytes, u64::from(s.name)) {
        Some(name) => name,
        None => b"".as_slice(),
    }
}

/// Does each table that is there list the symbol with an index, and is there one?
fn is_listed(tables: &Tables, name: &[u8], i: usize) -> bool
    requires { HasBucket tables.now.sysv }
    ensures { result ≡ is_listed (sysv_of tables.now.sysv) (gnu_of tables.now.gnu) name.now i }
{
    match (&tables.sysv, &tables.gnu) {
        (None, None) => false,
        (Some(sysv), None) => sysv.table.lists(sysv_hash(name), i),
        (None, Some(gnu)) => gnu.table.lists(gnu_hash(name), i),
        (Some(sysv), Some(gnu)) => {
            sysv.table.lists(sysv_hash(name), i) && gnu.table.lists(gnu_hash(name), i)
        }
    }
}

/// May other objects bind to the symbol with an index, and does a hash table not list it?
fn is_lost(tables: &Tables, dynamic: &Dyn, bytes: &[u8], symbols: &[RawSym], i: usize) -> bool
    requires table { IsTableOf dynamic.now bytes.now }
    requires sound { HasBucket tables.now.sysv }
    ensures { result
        ≡ is_lost (sysv_of tables.now.sysv) (gnu_of tables.now.gnu) (file_strings bytes.now) i
        (slice_get symbols.now i) }
{
    match symbols.get(i) {
        Some(s) => is_offerable(i, s) && !is_listed(tables, name_of(dynamic, bytes, s), i),
        None => false,
    }
}

/// The first such symbol.
#[tactic(auto, unfolding(load_model::specs::SymbolFlaws::first_lost))]
fn first_lost(tables: &Tables, dynamic: &Dyn, bytes: &[u8], symbols: &[RawSym]) -> Option<usize>
    requires table { IsTableOf dynamic.now bytes.now }
    requires sound { HasBucket tables.now.sysv }
    ensures { result
        ≡ first_lost (sysv_of tables.now.sysv) (gnu_of tables.now.gnu) (file_strings bytes.now)
        symbols.now }
{
    (0..symbols.len()).find(|i| is_lost(tables, dynamic, bytes, symbols, *i))
}

/// Do the hash tables list each symbol that other objects may bind to?
pub(crate) fn check_listed(
    tables: &Tables,
    dynamic: &Dyn,
    bytes: &[u8],
    symbols: &[RawSym],
) -> Result<(), SymFault>
    requires table { IsTableOf dynamic.now bytes.now }
    requires sound { HasBucket tables.now.sysv }
    ensures { TellsBy symbol_fault_flaw result
        (broken_hash (sysv_of tables.now.sysv) (gnu_of tables.now.gnu) (file_strings bytes.now)
        symbols.now) }
{
    match first_lost(tables, dynamic, bytes, symbols) {
        Some(i) => Err(flawed(HASH_BROKEN, i as u64)),
        None => Ok(()),
    }
}
