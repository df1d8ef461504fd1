//! Why a program is not loaded: the number and the evidence of each refusal. Definitions:
//! `specs/LoadRefusal.antt`.

ghost use Rattle.std.specs.Prelude.{◌≡◌, [], ◌++◌, IfOk, codes};
ghost use Rattle.std.specs.Fmt.{decimal};
ghost use Rattle.load_model.specs.Escaping.{escaped};
ghost use Rattle.refusals.specs.Fields.{with_field, with_fields};
ghost use Rattle.refusals.specs.LoadRefusal.{load_evidence, load_number};

use crate::damage::flaw_text;
use crate::fields::{with_field, with_fields};
use crate::numbers::{
    DAMAGED, MISSING_LIBRARY, NO_PROGRAM, RELATIVE_ITEM, RELATIVE_NEED, TOKEN_IN_NEED, TOKEN_UNSET,
    TOO_MANY_OBJECTS, UNSATISFIED_VERSION, VERSION_FILE_UNLOADED,
};
use byte_view::Flaw;
use load_model::limits::MOST_OBJECTS;
use load_model::{LoadRefusal, Name, Text};
use path_text::{Abs, NoMemory};
use std::alloc::Global;

/// The number of a refusal.
pub fn load_number(refusal: &LoadRefusal) -> u8
    ensures { result ≡ load_number refusal.now }
{
    match refusal {
        LoadRefusal::NoProgram(_) => NO_PROGRAM,
        LoadRefusal::Damaged(_, _) => DAMAGED,
        LoadRefusal::RelativeNeed(_, _) => RELATIVE_NEED,
        LoadRefusal::TokenInNeed(_, _) => TOKEN_IN_NEED,
        LoadRefusal::RelativeItem(_) => RELATIVE_ITEM,
        LoadRefusal::TokenUnset(_) => TOKEN_UNSET,
        LoadRefusal::MissingLibrary(_, _) => MISSING_LIBRARY,
        LoadRefusal::TooManyObjects(_) => TOO_MANY_OBJECTS,
        LoadRefusal::VersionFileUnloaded(_, _) => VERSION_FILE_UNLOADED,
        LoadRefusal::UnsatisfiedVersion(_, _, _) => UNSATISFIED_VERSION,
    }
}

/// What a refusal says.
pub fn load_evidence(alloc: Global, refusal: &LoadRefusal) -> Result<Text, NoMemory>
    ensures { IfOk result (λ text. text ≡ load_evidence refusal.now) }
{
    match refusal {
        LoadRefusal::NoProgram(path) => {
            with_field(alloc, b"no program at ", path.as_str().as_bytes(), b"")
        }
        LoadRefusal::Damaged(path, flaw) => damaged(alloc, path, flaw),
        LoadRefusal::RelativeNeed(name, path) => {
            named(alloc, b"relative need ", name, b" of ", path)
        }
        LoadRefusal::TokenInNeed(name, path) => {
            named(alloc, b"token in need ", name, b" of ", path)
        }
        LoadRefusal::RelativeItem(item) => {
            with_field(alloc, b"relative run path ", item.as_bytes(), b"")
        }
        LoadRefusal::TokenUnset(item) => {
            with_field(alloc, b"unset token in run path ", item.as_bytes(), b"")
        }
        LoadRefusal::MissingLibrary(name, path) => {
            named(alloc, b"missing library ", name, b" needed by ", path)
        }
        LoadRefusal::TooManyObjects(path) => too_many(alloc, path),
        LoadRefusal::VersionFileUnloaded(path, file) => {
            asks(alloc, path, file, b", which is not loaded")
        }
        LoadRefusal::UnsatisfiedVersion(path, file, version) => {
            unsatisfied(alloc, path, file, version)
        }
    }
}

fn damaged(alloc: Global, path: &Abs, flaw: &Flaw) -> Result<Text, NoMemory>
    ensures { IfOk result (λ text. text ≡ load_evidence (LoadRefusal.Damaged path.now flaw.now)) }
{
    let flaw = flaw_text(alloc, flaw)?;
    let mut end = Vec::from_slice(alloc, b": ")?;
    end.extend_from_slice(flaw.as_bytes())?;
    with_field(alloc, b"damaged ", path.as_str().as_bytes(), end.as_slice())
}

fn too_many(alloc: Global, path: &Abs) -> Result<Text, NoMemory>
    ensures { IfOk result (λ text. text ≡ load_evidence (LoadRefusal.TooManyObjects path.now)) }
{
    let front = format!(in alloc; "more than {MOST_OBJECTS} objects for ")?;
    with_field(alloc, front.as_bytes(), path.as_str().as_bytes(), b"")
}

fn unsatisfied(alloc: Global, path: &Abs, file: &Name, version: &Name) -> Result<Text, NoMemory>
    ensures { IfOk result (λ text. text
        ≡ load_evidence (LoadRefusal.UnsatisfiedVersion path.now file.now version.now)) }
{
    let end = with_field(alloc, b" for ", version.as_bytes(), b"")?;
    asks(alloc, path, file, end.as_bytes())
}

/// A path that asks a file, and what is said of it.
fn asks(alloc: Global, path: &Abs, file: &Name, after: &[u8]) -> Result<Text, NoMemory>
    ensures { IfOk result
        (λ text. text ≡ with_fields [] path.now (codes " asks ") file.now after.now) }
{
    let end = with_field(alloc, b" asks ", file.as_bytes(), after)?;
    with_field(alloc, b"", path.as_str().as_bytes(), end.as_bytes())
}

/// A name and the path of an object.
fn named(
    alloc: Global,
    before: &[u8],
    name: &Name,
    between: &[u8],
    path: &Abs,
) -> Result<Text, NoMemory>
    ensures { IfOk result (λ text. text ≡ with_fields before.now name.now between.now path.now []) }
{
    with_fields(
        alloc,
        before,
        name.as_bytes(),
        between,
        path.as_str().as_bytes(),
    )
}
