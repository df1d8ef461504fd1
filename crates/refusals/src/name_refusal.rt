//! Why a bundled library has no name: the refusals, the number and the evidence of each.
//! Definitions: `specs/NameRefusal.antt`.

ghost use Rattle.std.specs.Prelude.{◌≡◌, [], ◌++◌, IfOk, codes};
ghost use Rattle.load_model.specs.Escaping.{escaped};
ghost use Rattle.refusals.specs.Fields.{with_field, with_fields};
ghost use Rattle.refusals.specs.NameRefusal.{name_evidence, name_number};

use crate::fields::{with_field, with_fields};
use crate::numbers::{
    BAD_FILE_NAME, NAME_CLASH, OPEN_ALIAS, OPEN_NAME_ON_HOST_LIST, TWO_OPEN_NAMES,
};
use load_model::{Name, Text};
use path_text::{Abs, NoMemory};
use std::alloc::Global;

/// Why the bundled libraries do not all get a file name: each with its evidence.
#[derive(Drop)]
pub enum NameRefusal {
    /// A host library is opened under another name than its key: the name, and the key.
    OpenAlias(Name, Name),
    /// A bundled library is opened under a name of the host list.
    OpenNameOnHostList(Name),
    /// A bundled library is opened under two names: its path, and both names.
    TwoOpenNames(Abs, Name, Name),
    /// Two bundled libraries are opened under one name: the name, and both paths.
    NameClash(Name, Abs, Abs),
    /// The key of a bundled library is no file name.
    BadFileName(Name),
}

/// The number of a refusal.
pub fn name_number(refusal: &NameRefusal) -> u8
    ensures { result ≡ name_number refusal.now }
{
    match refusal {
        NameRefusal::OpenAlias(_, _) => OPEN_ALIAS,
        NameRefusal::OpenNameOnHostList(_) => OPEN_NAME_ON_HOST_LIST,
        NameRefusal::TwoOpenNames(_, _, _) => TWO_OPEN_NAMES,
        NameRefusal::NameClash(_, _, _) => NAME_CLASH,
        NameRefusal::BadFileName(_) => BAD_FILE_NAME,
    }
}

/// What a refusal says.
pub fn name_evidence(alloc: Global, refusal: &NameRefusal) -> Result<Text, NoMemory>
    ensures { IfOk result (λ text. text ≡ name_evidence refusal.now) }
{
    match refusal {
        NameRefusal::OpenAlias(name, key) => {
            with_fields(
                alloc,
                b"opened name ",
                name.as_bytes(),
                b" is ",
                key.as_bytes(),
            )
        }
        NameRefusal::OpenNameOnHostList(name) => {
            with_field(alloc, b"opened name ", name.as_bytes(), b" is listed")
        }
        NameRefusal::TwoOpenNames(path, one, other) => opened_twice(alloc, path, one, other),
        NameRefusal::NameClash(name, one, other) => clash(alloc, name, one, other),
        NameRefusal::BadFileName(name) => {
            with_field(alloc, b"bad file name ", name.as_bytes(), b"")
        }
    }
}

fn opened_twice(alloc: Global, path: &Abs, one: &Name, other: &Name) -> Result<Text, NoMemory>
    ensures { IfOk result
        (λ text. text ≡ name_evidence (NameRefusal.TwoOpenNames path.now one.now other.now)) }
{
    let names = with_fields(
        alloc,
        b" is opened as ",
        one.as_bytes(),
        b" and ",
        other.as_bytes(),
    )?;
    with_field(alloc, b"", path.as_str().as_bytes(), names.as_bytes())
}

fn clash(alloc: Global, name: &Name, one: &Abs, other: &Abs) -> Result<Text, NoMemory>
    ensures { IfOk result
        (λ text. text ≡ name_evidence (NameRefusal.NameClash name.now one.now other.now)) }
{
    let one = one.as_str().as_bytes();
    let paths = with_fields(alloc, b" for ", one, b" and ", other.as_str().as_bytes())?;
    with_field(alloc, b"name ", name.as_bytes(), paths.as_bytes())
}
