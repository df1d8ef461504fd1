//! The hash tables of a file, and the counts of symbols that they give.

ghost use Rattle.std.specs.Prelude.{◌≡◌, length, IfOk};
ghost use Rattle.std.specs.Option.{option_and_then, option_map};
ghost use Rattle.answers.specs.Answers.{TellsBy};
ghost use Rattle.byte_view.specs.Sound.{IsReadFrom};
ghost use Rattle.load_model.specs.SymbolFlaws.{hash_flaw};
ghost use Rattle.sym_tables.specs.Faults.{symbol_fault_flaw};
ghost use Rattle.sym_tables.specs.ReadSymbols.{AreHashTablesOf};

use crate::faults::SymFault;
use crate::gnu::FoundGnu;
use crate::sysv::FoundSysv;
use byte_view::Entry;
use byte_view::constants::{DT_GNU_HASH, DT_HASH};
use dyn_table::value_of;
use elf_headers::Elf;
use std::alloc::Global;

/// The hash tables that the dynamic table names.
#[derive(Drop)]
pub(crate) struct Tables {
    pub(crate) sysv: Option<FoundSysv>,
    pub(crate) gnu: Option<FoundGnu>,
}

impl Tables {
    /// Reads both, the older one first.
    #[tactic(auto, unfolding(load_model::specs::SymbolFlaws::hash_flaw))]
    pub(crate) fn read(
        alloc: Global,
        elf: &Elf,
        bytes: &[u8],
        entries: &[Entry],
    ) -> Result<Tables, SymFault>
        requires { IsReadFrom elf.now bytes.now }
        ensures flaw { TellsBy symbol_fault_flaw result (hash_flaw bytes.now elf.now entries.now) }
        ensures tables { IfOk result (λ t. AreHashTablesOf t bytes.now elf.now entries.now) }
    {
        let sysv = FoundSysv::read(alloc, elf, bytes, value_of(DT_HASH, entries))?;
        let gnu = FoundGnu::read(alloc, elf, bytes, value_of(DT_GNU_HASH, entries))?;
        Ok(Tables { sysv, gnu })
    }

    /// The count that the hash table gives.
    pub(crate) fn hash_count(&self) -> Option<u64>
        ensures { result ≡ option_map (λ f. length f.table.chains) self.now.sysv }
    {
        match &self.sysv {
            Some(found) => Some(found.table.symbols() as u64),
            None => None,
        }
    }

    /// The reach of the GNU hash table.
    pub(crate) fn reach(&self) -> Option<u64>
        ensures { result ≡ option_and_then (λ f. f.reach) self.now.gnu }
    {
        match &self.gnu {
            Some(found) => found.reach,
            None => None,
        }
    }
}

impl Tables {
    /// Where the hash table begins and ends in the file.
    pub(crate) fn hash_range(&self) -> Option<(usize, usize)>
        ensures { result ≡ option_map (λ f. f.range) self.now.sysv }
    {
        match &self.sysv {
            Some(found) => Some(found.range),
            None => None,
        }
    }

    /// The same of the GNU hash table.
    pub(crate) fn gnu_range(&self) -> Option<(usize, usize)>
        ensures { result ≡ option_map (λ f. f.range) self.now.gnu }
    {
        match &self.gnu {
            Some(found) => Some(found.range),
            None => None,
        }
    }
}
