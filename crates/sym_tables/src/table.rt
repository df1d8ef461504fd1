//! The symbols of a file, once they and the hash tables are known to have no flaw.

ghost use Rattle.std.specs.Prelude.{◌≡◌, ◌<◌, ◌^◌, IfOk, length};
ghost use Rattle.std.specs.Option.{option_copied};
ghost use Rattle.answers.specs.Answers.{TellsBy};
ghost use Rattle.byte_view.specs.Dynamic.{strings_size};
ghost use Rattle.byte_view.specs.Sound.{IsReadFrom};
ghost use Rattle.dyn_table.specs.Table.{IsTableOf};
ghost use Rattle.load_model.specs.SymbolFlaws.{count_by, count_flaw, symbol_flaw, symbol_flaw_by};
ghost use Rattle.load_model.specs.VersionTables.{text_of};
ghost use Rattle.sym_tables.specs.Faults.{symbol_fault_flaw};
ghost use Rattle.sym_tables.specs.FoundTables.{HasBucket};
ghost use Rattle.sym_tables.specs.Listing.{file_strings, flaw_behind_tables, gnu_of, lists_flaw, sysv_of};
ghost use Rattle.sym_tables.specs.ReadSymbols.{AreSymsBy, AreHashTablesOf, IsSymsOf};

use crate::count::{check_count, section_count};
use crate::faults::SymFault;
use crate::gnu_table::GnuTable;
use crate::listing::check_listed;
use crate::strings::{strings_range, text_in};
use crate::symbols::{check_names, read_symbols};
use crate::sysv::SysvTable;
use crate::tables::Tables;
use crate::tags::{check_symbol_size, symbols_at};
use byte_view::Entry;
use dyn_table::{Dyn, strings_size};
use elf_headers::Elf;
use load_model::RawSym;
use std::alloc::Global;
use std::marker::Model;

/// The symbols of a file in which they and the hash tables have no flaw. The file's bytes are not
/// kept.
#[derive(Drop)]
pub struct Syms {
    symbols: Vec<RawSym>,
    tables: Tables,
    strings: (usize, usize),
}

impl Model for Syms {
    ghost use Rattle.std.specs.Prelude.{◌<◌, ◌^◌, length};
    ghost use Rattle.std.specs.Option.{option_map};
    ghost use Rattle.sym_tables.specs.Listing.{gnu_of, sysv_of};
    ghost use Rattle.sym_tables.specs.ReadSymbols.{Symbols};

    ghost Value = { Symbols };

    ghost view = { λ s. record {
      count = length s.symbols.items;
      raw = s.symbols.items;
      hash_range = option_map (λ f. f.range) s.tables.sysv;
      gnu_range = option_map (λ f. f.range) s.tables.gnu;
      sysv = sysv_of s.tables.sysv;
      gnu = gnu_of s.tables.gnu;
      strings = s.strings;
    } };

    ghost invariant = { λ s. length s.symbols.items < 2 ^ 32 };
}

impl Syms {
    /// Reads the symbols of the file whose headers `elf` has and whose dynamic table is `table`.
    ///
    /// Answers the first flaw of the symbols and the hash tables, in the order of `docs/ELF.md`, or
    /// `NoMemory`.
    #[tactic(auto, using(crate::proofs::Whole::flaw_is))]
    pub fn read(alloc: Global, elf: &Elf, table: &Dyn, bytes: &[u8]) -> Result<Syms, SymFault>
        requires elf { IsReadFrom elf.now bytes.now }
        requires table { IsTableOf table.now bytes.now }
        ensures flaw { TellsBy symbol_fault_flaw result (symbol_flaw bytes.now) }
        ensures table { IfOk result (λ s. IsSymsOf s bytes.now) }
    {
        Syms::read_by(alloc, elf, table, bytes)
    }

    /// How many symbols there are.
    pub fn count(&self) -> u32
        ensures { result ≡ self.now.count }
    {
        self.symbols.len() as u32
    }

    /// The symbols by index, as the file has them.
    pub fn raw(&self) -> &[RawSym]
        ensures symbols { result.now ≡ self.now.raw }
        ensures few { length result.now < 2 ^ 32 }
    {
        &self.symbols
    }

    /// Where the hash table begins and ends in the file, if there is one.
    pub fn hash_range(&self) -> Option<(usize, usize)>
        ensures { result ≡ self.now.hash_range }
    {
        self.tables.hash_range()
    }

    /// Where the GNU hash table begins and ends in the file, if there is one. It ends behind the
    /// chain words below its reach.
    pub fn gnu_range(&self) -> Option<(usize, usize)>
        ensures { result ≡ self.now.gnu_range }
    {
        self.tables.gnu_range()
    }

    /// The hash table, if there is one.
    pub fn sysv(&self) -> Option<&SysvTable>
        ensures { option_copied result ≡ self.now.sysv }
    {
        match &self.tables.sysv {
            Some(found) => Some(&found.table),
            None => None,
        }
    }

    /// The GNU hash table, if there is one.
    pub fn gnu(&self) -> Option<&GnuTable>
        ensures { option_copied result ≡ self.now.gnu }
    {
        match &self.tables.gnu {
            Some(found) => Some(&found.table),
            None => None,
        }
    }

    /// The name of a symbol, empty where the string table ends before it.
    ///
    /// `bytes` are those that the symbols were read from.
    #[tactic(auto, unfolding(byte_view::specs::Dynamic::string_at))]
    pub fn name<'a>(&self, bytes: &'a [u8], s: &RawSym) -> &'a [u8]
        requires { IsSymsOf self.now bytes.now }
        ensures { result.now ≡ text_of bytes.now s.now.name }
    {
        let (from, to) = self.strings;
        text_in(&bytes[from..to], s.name)
    }

    /// The same over the entries of the dynamic table.
    #[tactic(auto, unfolding(load_model::specs::SymbolFlaws::symbol_flaw_by, crate::specs::Listing::flaw_behind_tables))]
    fn read_by(alloc: Global, elf: &Elf, table: &Dyn, bytes: &[u8]) -> Result<Syms, SymFault>
        requires elf { IsReadFrom elf.now bytes.now }
        requires table { IsTableOf table.now bytes.now }
        ensures flaw { TellsBy symbol_fault_flaw result (symbol_flaw_by bytes.now elf.now
            table.now.entries) }
        ensures table { IfOk result (λ s. AreSymsBy s bytes.now elf.now table.now.entries) }
    {
        check_symbol_size(table.entries())?;
        let tables = Tables::read(alloc, elf, bytes, table.entries())?;
        Syms::by_tables(alloc, elf, table, bytes, tables)
    }

    /// The same, once the hash tables are read.
    #[tactic(auto, unfolding(crate::specs::Listing::flaw_behind_tables), using(crate::proofs::Whole::list_is, crate::proofs::Whole::tables_sound))]
    fn by_tables(
        alloc: Global,
        elf: &Elf,
        table: &Dyn,
        bytes: &[u8],
        tables: Tables,
    ) -> Result<Syms, SymFault>
        requires elf { IsReadFrom elf.now bytes.now }
        requires table { IsTableOf table.now bytes.now }
        requires tables { AreHashTablesOf tables bytes.now elf.now table.now.entries }
        ensures flaw { TellsBy symbol_fault_flaw result (flaw_behind_tables bytes.now elf.now
            table.now.entries) }
        ensures table { IfOk result (λ s. AreSymsBy s bytes.now elf.now table.now.entries) }
    {
        let entries = table.entries();
        let count = count_of(elf, bytes, entries, &tables)?;
        let symbols = read_symbols(alloc, elf, bytes, symbols_at(entries), count)?;
        check_list(table, bytes, &tables, &symbols)?;
        Ok(Syms {
            symbols,
            tables,
            strings: strings_range(elf, table, bytes),
        })
    }
}

/// How many symbols there are, if a source says it and none says otherwise.
#[tactic(auto, using(crate::proofs::RawSymbols::header_there, crate::proofs::Whole::counts_are, crate::proofs::Whole::count_is))]
fn count_of(elf: &Elf, bytes: &[u8], entries: &[Entry], tables: &Tables) -> Result<u64, SymFault>
    requires elf { IsReadFrom elf.now bytes.now }
    requires tables { AreHashTablesOf tables.now bytes.now elf.now entries.now }
    ensures flaw { TellsBy symbol_fault_flaw result (count_flaw bytes.now elf.now entries.now) }
    ensures count { IfOk result (λ count. count ≡ count_by bytes.now elf.now entries.now) }
{
    let section = section_count(bytes, entries);
    check_count(section, tables.hash_count(), tables.reach())
}

/// Are the names of the symbols in the string table, and do the hash tables list those that other
/// objects may bind to?
#[tactic(auto, unfolding(crate::specs::Listing::lists_flaw))]
fn check_list(
    table: &Dyn,
    bytes: &[u8],
    tables: &Tables,
    symbols: &[RawSym],
) -> Result<(), SymFault>
    requires table { IsTableOf table.now bytes.now }
    requires sound { HasBucket tables.now.sysv }
    ensures { TellsBy symbol_fault_flaw result
        (lists_flaw (strings_size table.now.entries) (sysv_of tables.now.sysv)
        (gnu_of tables.now.gnu) (file_strings bytes.now) symbols.now) }
{
    let size = strings_size(table.entries());
    check_names(size, symbols)?;
    check_listed(tables, table, bytes, symbols)
}
