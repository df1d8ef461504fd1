//! The symbols of an object and a hash table of its file, by which names are looked up.
//!
//! What an object offers is said in `specs/Offers.antt` of `load_model`, without any table. Each
//! hash table of a file without a flaw lists all symbols that other objects may bind to, so what is
//! found by one of them is the offer.

ghost use Rattle.std.specs.Prelude.{◌≡◌, ◌≤◌, ◌<◌, ◌+◌, ◌^◌, IfOk, length};
ghost use Rattle.std.specs.Option.{option_copied};
ghost use Rattle.hash_lookup.specs.Finding.{found_in, nothing, wish_of};
ghost use Rattle.hash_lookup.specs.Listed.{chain_of, file_table, matches_of, syms_with, table_from};
ghost use Rattle.load_model.specs.Offers.{offer_of};
ghost use Rattle.sym_tables.specs.ReadSymbols.{IsSymsOf};

use crate::candidates::Lookup;
use crate::copies::syms_with;
use crate::finding::Found;
use crate::gnu_chains::GnuChains;
use crate::steps::Steps;
use crate::sysv_chains::SysvChains;
use load_model::{Class, List, NoMemory, Offers, Sym, Ver};
use std::alloc::{AllocError, Global};
use std::marker::{Brand, Model};
use std::sync::ledger::{Blank, Ledger};
use sym_tables::Syms;

/// The symbols of an object, and the hash table by which they are found: that of the GNU tools
/// where there is one. The file's bytes are not kept.
#[derive(Drop)]
pub struct Tables {
    syms: List<Sym>,
    versioned: bool,
    table: Table,
}

impl Model for Tables {
    ghost use Rattle.hash_lookup.specs.Listed.{Indexed, ListsAll};

    ghost Value = { Indexed };

    ghost view = { λ t. record {
      offered = record { syms = t.syms; versioned = t.versioned };
      table = t.table;
    } };

    ghost invariant = { λ t. ListsAll t.table t.syms };
}

impl Tables {
    /// The tables of the file that the symbols were read from, with the version of each symbol and
    /// whether it is hidden. Takes time in proportion to symbols, names and tables.
    #[tactic(auto, using(crate::proofs::SymbolLemmas::same_table))]
    pub fn of(
        alloc: Global,
        syms: &Syms,
        versions: &[Ver],
        hidden: &[bool],
        versioned: bool,
        bytes: &[u8],
    ) -> Result<Tables, NoMemory>
        requires symbols { IsSymsOf syms.now bytes.now }
        requires versions { length versions.now ≡ syms.now.count }
        requires hidden { length hidden.now ≡ syms.now.count }
        ensures offered { IfOk result (λ tables. tables.offered ≡ record {
          syms = syms_with bytes.now syms.now.raw versions.now hidden.now;
          versioned = versioned;
        }) }
        ensures table { IfOk result (λ tables. tables.table ≡ file_table bytes.now) }
        ensures few { IfOk result (λ tables. length tables.offered.syms < 2 ^ 32) }
    {
        Ok(Tables {
            syms: syms_with(alloc, syms, versions, hidden, bytes)?,
            versioned,
            table: Table::of(alloc, syms)?,
        })
    }

    /// The same as `offer`, and counts the symbols that are compared: at most those in the chain of
    /// the name's bucket.
    pub fn find_counted<L: Ledger>(
        &self,
        name: &[u8],
        version: Option<&[u8]>,
        class: Class,
        steps: &mut Steps<L>,
    ) -> Option<u32>
        requires few { length self.now.offered.syms < 2 ^ 32 }
        ensures offer { result
            ≡ offer_of self.now.offered name.now (option_copied version.entry) class }
        ensures cost { steps.new ≤ steps.old + length (chain_of self.now.table name.now) }
    {
        let lookup = Lookup {
            syms: self.syms.as_slice(),
            name,
            version,
            class,
            versioned: self.versioned,
        };
        self.table.find(&lookup, steps).best()
    }

    /// The same with a ledger of its own.
    fn find<L: Ledger>(
        &self,
        name: &[u8],
        version: Option<&[u8]>,
        class: Class,
        blank: Blank,
    ) -> Option<u32>
        requires few { length self.now.offered.syms < 2 ^ 32 }
        requires name { blank.name ≡ L.name }
        requires parts { blank.parts ≡ L.parts }
        requires some { 0 < blank.parts }
        ensures { result ≡ offer_of self.now.offered name.now (option_copied version.entry) class }
    {
        let mut steps = Steps::<L>::new(blank);
        self.find_counted(name, version, class, &mut steps)
    }
}

impl Offers for Tables {
    ghost offered = { λ tables. tables.offered };

    fn offer(&self, name: &[u8], version: Option<&[u8]>, class: Class) -> Option<u32> {
        self.find::<Brand>(name, version, class, Blank::new(1))
    }
}

/// A hash table of a file, if it has one.
#[derive(Drop)]
enum Table {
    Gnu(GnuChains),
    Sysv(SysvChains),
    Absent,
}

impl Table {
    /// A copy of the GNU hash table where there is one, else of the other.
    fn of(alloc: Global, syms: &Syms) -> Result<Table, AllocError>
        ensures { IfOk result (λ table. table ≡ table_from syms.now.gnu syms.now.sysv) }
    {
        if let Some(gnu) = syms.gnu() {
            return Ok(Table::Gnu(GnuChains::of(alloc, gnu)?));
        }
        match syms.sysv() {
            Some(sysv) => Ok(Table::Sysv(SysvChains::of(alloc, sysv)?)),
            None => Ok(Table::Absent),
        }
    }

    /// What is found in the chain of the bucket of a name.
    #[tactic(auto, using(crate::proofs::ChainLemmas::none_left))]
    fn find<L: Ledger>(&self, lookup: &Lookup<'_>, steps: &mut Steps<L>) -> Found
        requires few { length lookup.now.syms.now < 2 ^ 32 }
        ensures found { result ≡ found_in (wish_of lookup.now) lookup.now.syms.now nothing
            (matches_of self.now lookup.now.name.now) }
        ensures cost { steps.new ≤ steps.old + length (chain_of self.now lookup.now.name.now) }
    {
        match self {
            Table::Gnu(table) => table.find(lookup, steps),
            Table::Sysv(table) => table.find(lookup, steps),
            Table::Absent => Found::nothing(),
        }
    }
}
