//! The versions that a need asks of its file.

ghost use Rattle.std.specs.Prelude.{◌≡◌, ◌≤◌, ◌<◌, ◌+◌, ◌++◌, ◌∷◌, [], IfOk, OnOk};
ghost use Rattle.answers.specs.Answers.{TellsBy};
ghost use Rattle.answers.specs.First.{first_some};
ghost use Rattle.byte_view.specs.Dynamic.{dynamic_entries, strings_size};
ghost use Rattle.byte_view.specs.Sound.{IsReadFrom};
ghost use Rattle.byte_view.specs.declared.constants.TheConstants.{HIGHEST_END};
ghost use Rattle.load_model.specs.VersionFlaws.{bad_next, bad_text, bad_vernaux, vernauxs_flaw};
ghost use Rattle.load_model.specs.VersionTables.{vna_name, vna_next};
ghost use Rattle.version_tables.specs.Faults.{version_fault_flaw};
ghost use Rattle.version_tables.specs.Records.{asked_with, vernaux_words, verneed_words};
ghost use Rattle.version_tables.specs.Walks.{asked_of_record};

use crate::chains::check_next;
use crate::faults::{VersionFault, flawed};
use crate::records::{Vernaux, Verneed, vernaux_at};
use crate::tables::check_text;
use byte_view::constants::{VER_FLG_WEAK, VERSYM_VERSION};
use byte_view::flaws::VERSION_RANGE;
use elf_headers::Elf;

/// A version that is asked of a file.
#[derive(Clone, Copy)]
pub(crate) struct Asked {
    /// The number of its Verneed, counted from 0.
    pub(crate) need: u32,
    /// The string place of the file's name.
    pub(crate) file: u32,
    /// The string place of its own name.
    pub(crate) name: u32,
    /// The index that it gives its version.
    pub(crate) index: u16,
    /// May it be missing?
    pub(crate) weak: bool,
    /// Where its Vernaux begins in the file.
    pub(crate) place: u64,
}

/// The Vernaux at an address, number `j` of the `said` ones of its need, counted from 0.
#[tactic(auto, unfolding(crate::specs::Records::vernaux_words))]
fn good_vernaux(
    elf: &Elf,
    bytes: &[u8],
    size: u64,
    at: u64,
    said: u64,
    j: u64,
) -> Result<Vernaux, VersionFault>
    requires headers { IsReadFrom elf.now bytes.now }
    requires strings { size ≡ strings_size (dynamic_entries bytes.now) }
    requires turn { j < HIGHEST_END }
    ensures flaw { TellsBy version_fault_flaw result (first_some (bad_vernaux bytes.now at ∷
        bad_text bytes.now (vna_name bytes.now at) ∷ bad_next said j (vna_next bytes.now at)
        ∷ [])) }
    ensures words { IfOk result (λ v. v ≡ vernaux_words bytes.now at) }
    ensures limit { IfOk result (λ _. at + 16 ≤ HIGHEST_END) }
{
    let Some(vernaux) = vernaux_at(elf, bytes, at) else {
        return Err(flawed(VERSION_RANGE, at, 0));
    };
    check_text(size, vernaux.name)?;
    check_next(said, j, vernaux.next)?;
    Ok(vernaux)
}

/// What is kept of a Vernaux.
fn what_is_asked(number: u32, verneed: &Verneed, vernaux: &Vernaux) -> Asked
    ensures { result ≡ asked_with number verneed.now vernaux.now }
{
    Asked {
        need: number,
        file: verneed.file,
        name: vernaux.name,
        index: vernaux.other & VERSYM_VERSION,
        weak: vernaux.flags & VER_FLG_WEAK != 0,
        place: vernaux.place,
    }
}

/// Adds the versions that the Verneed at an address asks of its file, in order.
///
/// There are fewer than 65,536 of them.
pub(crate) fn read_asked(
    elf: &Elf,
    bytes: &[u8],
    size: u64,
    number: u32,
    at: u64,
    verneed: &Verneed,
    asks: &mut Vec<Asked>,
) -> Result<(), VersionFault>
    requires headers { IsReadFrom elf.now bytes.now }
    requires strings { size ≡ strings_size (dynamic_entries bytes.now) }
    requires words { verneed.now ≡ verneed_words bytes.now at }
    requires limit { at + 16 ≤ HIGHEST_END }
    ensures flaw { TellsBy version_fault_flaw result (vernauxs_flaw bytes.now at) }
    ensures kept { OnOk result (asks.new.items ≡ asks.old.items ++ asked_of_record bytes.now number
        at) }
{
    let said = u64::from(verneed.cnt);
    let mut aux_at = at + u64::from(verneed.aux);
    for j in 0..said {
        let vernaux = match good_vernaux(elf, bytes, size, aux_at, said, j) {
            Ok(vernaux) => vernaux,
            Err(fault) => return Err(fault),
        };
        let Ok(()) = asks.push(what_is_asked(number, verneed, &vernaux)) else {
            return Err(VersionFault::NoMemory);
        };
        aux_at += u64::from(vernaux.next);
    }
    Ok(())
}
