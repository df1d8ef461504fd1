//! What a loader sees of a file, with the tables by which its offers are found.

ghost use Rattle.std.specs.Prelude.{◌≡◌, ◌<◌, ◌^◌, IfOk, length};
ghost use Rattle.answers.specs.Answers.{TellsBy};
ghost use Rattle.elf_face.specs.Faults.{flaw_of};
ghost use Rattle.elf_face.specs.ReadParts.{ArePartsOf};
ghost use Rattle.hash_lookup.specs.Listed.{file_table};
ghost use Rattle.load_model.specs.Bindings.{offered_by};
ghost use Rattle.load_model.specs.Faces.{face_of, first_flaw};

use crate::entries::has_versions;
use crate::face::make_face;
use crate::faults::FaceFault;
use crate::parts::Parts;
use hash_lookup::Tables;
use load_model::{Face, NoMemory};
use std::alloc::Global;

/// What a loader sees of a file, and the tables by which its offers are found.
#[derive(Drop)]
pub struct Loaded {
    pub face: Face,
    pub tables: Tables,
}

/// Reads a file as `read_face` does, and keeps its symbols and a hash table for look-ups.
///
/// Answers the first flaw of the file, in the order of `docs/ELF.md`, or `NoMemory`.
pub fn read_loaded(alloc: Global, bytes: &[u8]) -> Result<Loaded, FaceFault>
    ensures flaw { TellsBy flaw_of result (first_flaw bytes.now) }
    ensures face { IfOk result (λ loaded. loaded.face ≡ face_of bytes.now) }
    ensures tables { IfOk result (λ loaded. loaded.tables.offered ≡ offered_by loaded.face) }
    ensures table { IfOk result (λ loaded. loaded.tables.table ≡ file_table bytes.now) }
    ensures few_symbols { IfOk result (λ loaded. length loaded.face.syms < 2 ^ 32) }
    ensures few_asks { IfOk result (λ loaded. length loaded.face.asks < 2 ^ 32) }
{
    let parts = Parts::read(alloc, bytes)?;
    match make_loaded(alloc, parts, bytes) {
        Ok(loaded) => Ok(loaded),
        Err(_) => Err(FaceFault::NoMemory),
    }
}

/// The same from the parts of the file. The tables are made first, since the face takes over the
/// lists of the versions.
fn make_loaded(alloc: Global, parts: Parts, bytes: &[u8]) -> Result<Loaded, NoMemory>
    requires { ArePartsOf parts bytes.now }
    ensures face { IfOk result (λ loaded. loaded.face ≡ face_of bytes.now) }
    ensures tables { IfOk result (λ loaded. loaded.tables.offered ≡ offered_by loaded.face) }
    ensures table { IfOk result (λ loaded. loaded.tables.table ≡ file_table bytes.now) }
    ensures few_symbols { IfOk result (λ loaded. length loaded.face.syms < 2 ^ 32) }
    ensures few_asks { IfOk result (λ loaded. length loaded.face.asks < 2 ^ 32) }
{
    let tables = make_tables(alloc, &parts, bytes)?;
    let face = make_face(alloc, parts, bytes)?;
    Ok(Loaded { face, tables })
}

/// The tables of a file that has no flaw.
#[tactic(auto, using(crate::proofs::Numbered::same_offer, crate::proofs::Numbered::many_versions, crate::proofs::Numbered::many_hidden))]
fn make_tables(alloc: Global, parts: &Parts, bytes: &[u8]) -> Result<Tables, NoMemory>
    requires { ArePartsOf parts.now bytes.now }
    ensures offered { IfOk result (λ tables. tables.offered ≡ offered_by (face_of bytes.now)) }
    ensures table { IfOk result (λ tables. tables.table ≡ file_table bytes.now) }
{
    Tables::of(
        alloc,
        &parts.syms,
        parts.versions.of(),
        parts.versions.hidden(),
        has_versions(parts.table.entries()),
        bytes,
    )
}
