//! The hash table of the GNU tools, read from a file in three stages: its front, its reach, and its
//! chain words.

ghost use Rattle.std.specs.Prelude.{[], ◌≡◌, Some, true, IfOk};
ghost use Rattle.answers.specs.Answers.{TellsBy};
ghost use Rattle.byte_view.specs.Sound.{IsReadFrom};
ghost use Rattle.load_model.specs.GnuTable.{is_gnu_sound};
ghost use Rattle.load_model.specs.SymbolFlaws.{bad_gnu};
ghost use Rattle.sym_tables.specs.Faults.{symbol_fault_flaw};
ghost use Rattle.sym_tables.specs.FoundTables.{IsFoundGnu, IsGnuAt, front_table};
ghost use Rattle.sym_tables.specs.Places.{IsFrontOf, IsReachOf};

use crate::faults::{SymFault, flawed};
use crate::gnu_front::Front;
use crate::gnu_reach::Reach;
use crate::gnu_table::GnuTable;
use crate::words::words;
use byte_view::constants::DT_GNU_HASH;
use byte_view::flaws::HASH_RANGE;
use elf_headers::Elf;
use std::alloc::{AllocError, Global};

/// A table, its reach, and where it begins and ends in the file, the chain words below its reach
/// included.
#[derive(Drop)]
pub(crate) struct FoundGnu {
    pub(crate) table: GnuTable,
    pub(crate) reach: Option<u64>,
    pub(crate) range: (usize, usize),
}

impl FoundGnu {
    /// The table whose parts up to the chain words are these.
    #[tactic(auto, using(crate::proofs::GnuParts::words_within, crate::proofs::GnuParts::size_is, crate::proofs::GnuParts::table_there))]
    fn complete(
        alloc: Global,
        elf: &Elf,
        bytes: &[u8],
        addr: u64,
        front: Front,
        reach: Reach,
    ) -> Result<FoundGnu, AllocError>
        requires read { IsReadFrom elf.now bytes.now }
        requires front { IsFrontOf front bytes.now elf.now addr }
        requires reach { IsReachOf reach bytes.now elf.now addr }
        requires sound { is_gnu_sound (front_table front []) ≡ true }
        ensures { IfOk result (λ f. IsFoundGnu f bytes.now elf.now addr) }
    {
        let Some((from, to)) = elf.range(addr, front.size + 4 * reach.words) else {
            unreachable!();
        };
        let words = words(alloc, bytes, from as u64 + front.size, reach.words)?;
        let table = GnuTable::new(alloc, front, words)?;
        Ok(FoundGnu {
            table,
            reach: reach.reach,
            range: (from, to),
        })
    }

    /// The table at an address.
    #[tactic(auto, using(crate::proofs::GnuParts::gnu_cut, crate::proofs::GnuParts::gnu_unsound, crate::proofs::GnuParts::gnu_unended, crate::proofs::GnuParts::gnu_whole))]
    fn read_at(alloc: Global, elf: &Elf, bytes: &[u8], addr: u64) -> Result<FoundGnu, SymFault>
        requires { IsReadFrom elf.now bytes.now }
        ensures flaw { TellsBy symbol_fault_flaw result (bad_gnu bytes.now elf.now (Some addr)) }
        ensures table { IfOk result (λ f. IsFoundGnu f bytes.now elf.now addr) }
    {
        let Ok(front) = Front::read(alloc, elf, bytes, addr) else {
            return Err(SymFault::NoMemory);
        };
        let Some(front) = front else {
            return Err(flawed(HASH_RANGE, DT_GNU_HASH));
        };
        if !front.is_sound() {
            return Err(flawed(HASH_RANGE, DT_GNU_HASH));
        }
        let Some(reach) = Reach::of(&front, elf, bytes, addr) else {
            return Err(flawed(HASH_RANGE, DT_GNU_HASH));
        };
        let Ok(found) = FoundGnu::complete(alloc, elf, bytes, addr, front, reach) else {
            return Err(SymFault::NoMemory);
        };
        Ok(found)
    }

    /// The table at an address, if the file has one.
    pub(crate) fn read(
        alloc: Global,
        elf: &Elf,
        bytes: &[u8],
        at: Option<u64>,
    ) -> Result<Option<FoundGnu>, SymFault>
        requires { IsReadFrom elf.now bytes.now }
        ensures flaw { TellsBy symbol_fault_flaw result (bad_gnu bytes.now elf.now at) }
        ensures table { IfOk result (λ found. IsGnuAt found bytes.now elf.now at) }
    {
        match at {
            Some(addr) => match FoundGnu::read_at(alloc, elf, bytes, addr) {
                Ok(found) => Ok(Some(found)),
                Err(fault) => Err(fault),
            },
            None => Ok(None),
        }
    }
}
