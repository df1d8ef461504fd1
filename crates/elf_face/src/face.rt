//! What a loader sees of a file.

ghost use Rattle.std.specs.Prelude.{◌≡◌, ◌<◌, ◌≤◌, ◌^◌, IfOk, length};
ghost use Rattle.answers.specs.Answers.{TellsBy};
ghost use Rattle.byte_view.specs.Headers.{e_machine};
ghost use Rattle.elf_face.specs.Faults.{flaw_of};
ghost use Rattle.elf_face.specs.ReadParts.{ArePartsOf};
ghost use Rattle.load_model.specs.Faces.{face_of, first_flaw};

use crate::entries::{has_versions, named_text, needs_of, says_symbolic};
use crate::faults::FaceFault;
use crate::interp::interp_of;
use crate::parts::Parts;
use crate::symbols::syms_of;
use crate::texts::copied;
use byte_view::constants::{DT_RPATH, DT_RUNPATH, DT_SONAME};
use byte_view::u16_at;
use load_model::{Face, NoMemory};
use std::alloc::Global;
use version_tables::VersionParts;

/// Reads a file as a loader does: its headers, dynamic table, symbols, versions and names.
///
/// Answers the first flaw of the file, in the order of `docs/ELF.md`, or `NoMemory`.
pub fn read_face(alloc: Global, bytes: &[u8]) -> Result<Face, FaceFault>
    ensures flaw { TellsBy flaw_of result (first_flaw bytes.now) }
    ensures face { IfOk result (λ face. face ≡ face_of bytes.now) }
    ensures few_symbols { IfOk result (λ face. length face.syms < 2 ^ 32) }
    ensures few_asks { IfOk result (λ face. length face.asks < 2 ^ 32) }
{
    let parts = Parts::read(alloc, bytes)?;
    match make_face(alloc, parts, bytes) {
        Ok(face) => Ok(face),
        Err(_) => Err(FaceFault::NoMemory),
    }
}

/// The machine of a file with a whole ELF header.
fn machine_of(bytes: &[u8]) -> u16
    requires { 64 ≤ length bytes.now }
    ensures { result ≡ e_machine bytes.now }
{
    u16_at(bytes, 18).unwrap()
}

/// What a loader sees of a file that has no flaw. It takes over the lists of the versions.
#[tactic(auto, unfolding(load_model::specs::Faces::face_of, load_model::specs::Faces::is_symbolic), using(crate::proofs::Numbered::length_syms, crate::proofs::Within::header_whole))]
pub(crate) fn make_face(alloc: Global, parts: Parts, bytes: &[u8]) -> Result<Face, NoMemory>
    requires { ArePartsOf parts bytes.now }
    ensures face { IfOk result (λ face. face ≡ face_of bytes.now) }
    ensures few_symbols { IfOk result (λ face. length face.syms < 2 ^ 32) }
    ensures few_asks { IfOk result (λ face. length face.asks < 2 ^ 32) }
{
    let Parts {
        elf,
        table,
        syms,
        versions,
    } = parts;
    let VersionParts {
        of,
        hidden,
        defs,
        asks,
    } = versions.into_parts();
    Ok(Face {
        machine: machine_of(bytes),
        interp: copied(alloc, interp_of(&elf, bytes))?,
        soname: copied(alloc, named_text(&table, bytes, DT_SONAME))?,
        needs: needs_of(alloc, &table, bytes)?,
        rpath: copied(alloc, named_text(&table, bytes, DT_RPATH))?,
        runpath: copied(alloc, named_text(&table, bytes, DT_RUNPATH))?,
        symbolic: says_symbolic(table.entries()),
        syms: syms_of(alloc, &table, bytes, syms.raw(), of, hidden)?,
        versioned: has_versions(table.entries()),
        defs,
        asks,
    })
}
