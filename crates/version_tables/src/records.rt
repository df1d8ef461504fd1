//! The records of the version tables.
//!
//! Linux Standard Base, Symbol Versioning. Each has a place in the file, and its words.

ghost use Rattle.std.specs.Prelude.{◌≡◌, ◌≤◌, ◌+◌, Some, None, cond, length, IfSome};
ghost use Rattle.byte_view.specs.Sound.{IsReadFrom};
ghost use Rattle.byte_view.specs.declared.constants.TheConstants.{HIGHEST_END};
ghost use Rattle.load_model.specs.VersionFlaws.{is_unbacked};
ghost use Rattle.version_tables.specs.Records.{verdaux_words, verdef_words, vernaux_words, verneed_words};

use crate::memory::backed;
use elf_headers::{Elf, half, word};

/// A version definition.
#[derive(Clone, Copy)]
pub(crate) struct Verdef {
    pub(crate) place: u64,
    pub(crate) version: u16,
    pub(crate) ndx: u16,
    pub(crate) cnt: u16,
    pub(crate) aux: u32,
    pub(crate) next: u32,
}

/// A name of a definition.
#[derive(Clone, Copy)]
pub(crate) struct Verdaux {
    pub(crate) place: u64,
    pub(crate) name: u32,
}

/// A file of which versions are needed.
#[derive(Clone, Copy)]
pub(crate) struct Verneed {
    pub(crate) place: u64,
    pub(crate) version: u16,
    pub(crate) cnt: u16,
    pub(crate) file: u32,
    pub(crate) aux: u32,
    pub(crate) next: u32,
}

/// A version that is needed.
#[derive(Clone, Copy)]
pub(crate) struct Vernaux {
    pub(crate) place: u64,
    pub(crate) flags: u16,
    pub(crate) other: u16,
    pub(crate) name: u32,
    pub(crate) next: u32,
}

/// The Verdef at an address, if it stands in the file.
#[tactic(auto, using(crate::proofs::Words::verdef_made, crate::proofs::Words::unbacked_words))]
pub(crate) fn verdef_at(elf: &Elf, bytes: &[u8], at: u64) -> Option<Verdef>
    requires { IsReadFrom elf.now bytes.now }
    ensures words { result ≡ cond (is_unbacked bytes.now at 20) None (Some (verdef_words bytes.now
        at)) }
    ensures limit { IfSome result (λ _. at + 20 ≤ HIGHEST_END) }
{
    let place = backed(elf, bytes, at, 20)?;
    Some(Verdef {
        place,
        version: half(bytes, place),
        ndx: half(bytes, place + 4),
        cnt: half(bytes, place + 6),
        aux: word(bytes, place + 12),
        next: word(bytes, place + 16),
    })
}

/// The Verdaux at an address, if it stands in the file.
#[tactic(auto, using(crate::proofs::Words::verdaux_made, crate::proofs::Words::unbacked_words))]
pub(crate) fn verdaux_at(elf: &Elf, bytes: &[u8], at: u64) -> Option<Verdaux>
    requires { IsReadFrom elf.now bytes.now }
    ensures { result ≡ cond (is_unbacked bytes.now at 8) None (Some (verdaux_words bytes.now at)) }
{
    let place = backed(elf, bytes, at, 8)?;
    Some(Verdaux {
        place,
        name: word(bytes, place),
    })
}

/// The Verneed at an address, if it stands in the file.
#[tactic(auto, using(crate::proofs::Words::verneed_made, crate::proofs::Words::unbacked_words))]
pub(crate) fn verneed_at(elf: &Elf, bytes: &[u8], at: u64) -> Option<Verneed>
    requires { IsReadFrom elf.now bytes.now }
    ensures words { result ≡ cond (is_unbacked bytes.now at 16) None (Some (verneed_words bytes.now
        at)) }
    ensures limit { IfSome result (λ _. at + 16 ≤ HIGHEST_END) }
    ensures within { IfSome result (λ v. v.place + 16 ≤ length bytes.now) }
{
    let place = backed(elf, bytes, at, 16)?;
    Some(Verneed {
        place,
        version: half(bytes, place),
        cnt: half(bytes, place + 2),
        file: word(bytes, place + 4),
        aux: word(bytes, place + 8),
        next: word(bytes, place + 12),
    })
}

/// The Vernaux at an address, if it stands in the file.
#[tactic(auto, using(crate::proofs::Words::vernaux_made, crate::proofs::Words::unbacked_words))]
pub(crate) fn vernaux_at(elf: &Elf, bytes: &[u8], at: u64) -> Option<Vernaux>
    requires { IsReadFrom elf.now bytes.now }
    ensures words { result ≡ cond (is_unbacked bytes.now at 16) None (Some (vernaux_words bytes.now
        at)) }
    ensures limit { IfSome result (λ _. at + 16 ≤ HIGHEST_END) }
{
    let place = backed(elf, bytes, at, 16)?;
    Some(Vernaux {
        place,
        flags: half(bytes, place + 4),
        other: half(bytes, place + 6),
        name: word(bytes, place + 8),
        next: word(bytes, place + 12),
    })
}
