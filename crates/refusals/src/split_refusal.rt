//! Why a build has no split: the refusals, the number and the evidence of each. Definitions:
//! `specs/SplitRefusal.antt`.

ghost use Rattle.std.specs.Prelude.{◌≡◌, [], ◌++◌, IfOk, codes};
ghost use Rattle.load_model.specs.Escaping.{escaped};
ghost use Rattle.refusals.specs.Differences.{difference_text};
ghost use Rattle.refusals.specs.Fields.{with_field, with_fields};
ghost use Rattle.refusals.specs.SplitRefusal.{split_evidence, split_number};

use crate::differences::difference_text;
use crate::fields::{with_field, with_fields};
use crate::numbers::{
    HOST_ALIAS, HOST_NAME_CLASH, HOST_NEEDS_UNLISTED, HOST_RPATH, INTERPRETER_UNLISTED,
    NO_INTERPRETER, PROGRAM_NEEDED, SOURCE_NOT_HOST, SPLIT_NEED,
};
use host_list::Difference;
use load_model::{Name, Text};
use path_text::{Abs, NoMemory};
use std::alloc::Global;

/// Why the objects of a build cannot be parted into programs, host libraries and bundled
/// libraries: each with its evidence.
#[derive(Drop)]
pub enum SplitRefusal {
    /// A program has no interpreter: its path.
    NoInterpreter(Abs),
    /// The interpreter of a program is not on the host list: the path of the program.
    InterpreterUnlisted(Abs),
    /// A program is loaded as a library, or versions are asked of it: its path.
    ProgramNeeded(Abs),
    /// Two host libraries have one key: the key, and both paths.
    HostNameClash(Name, Abs, Abs),
    /// A host library has a run path: its path.
    HostRpath(Abs),
    /// A host library needs a bundled library: its path, and the need.
    HostNeedsUnlisted(Abs, Name),
    /// A host library needs another under a name that is not its key: its path, and the need.
    HostAlias(Abs, Name),
    /// A need or a file of versions of a bundled library goes to two objects: its path, the name,
    /// and the paths of both objects.
    SplitNeed(Abs, Name, Abs, Abs),
    /// The tree of the build does not meet the record of the build: where it differs.
    SourceNotHost(Difference),
}

/// The number of a refusal.
pub fn split_number(refusal: &SplitRefusal) -> u8
    ensures { result ≡ split_number refusal.now }
{
    match refusal {
        SplitRefusal::NoInterpreter(_) => NO_INTERPRETER,
        SplitRefusal::InterpreterUnlisted(_) => INTERPRETER_UNLISTED,
        SplitRefusal::ProgramNeeded(_) => PROGRAM_NEEDED,
        SplitRefusal::HostNameClash(_, _, _) => HOST_NAME_CLASH,
        SplitRefusal::HostRpath(_) => HOST_RPATH,
        SplitRefusal::HostNeedsUnlisted(_, _) => HOST_NEEDS_UNLISTED,
        SplitRefusal::HostAlias(_, _) => HOST_ALIAS,
        SplitRefusal::SplitNeed(_, _, _, _) => SPLIT_NEED,
        SplitRefusal::SourceNotHost(_) => SOURCE_NOT_HOST,
    }
}

/// What a refusal says.
pub fn split_evidence(alloc: Global, refusal: &SplitRefusal) -> Result<Text, NoMemory>
    ensures { IfOk result (λ text. text ≡ split_evidence refusal.now) }
{
    match refusal {
        SplitRefusal::NoInterpreter(path) => {
            with_field(alloc, b"", path.as_str().as_bytes(), b" has no interpreter")
        }
        SplitRefusal::InterpreterUnlisted(path) => {
            with_field(
                alloc,
                b"interpreter of ",
                path.as_str().as_bytes(),
                b" is not listed",
            )
        }
        SplitRefusal::ProgramNeeded(path) => {
            with_field(alloc, b"program ", path.as_str().as_bytes(), b" is needed")
        }
        SplitRefusal::HostNameClash(name, one, other) => clash(alloc, name, one, other),
        SplitRefusal::HostRpath(path) => {
            with_field(
                alloc,
                b"host library ",
                path.as_str().as_bytes(),
                b" has a run path",
            )
        }
        SplitRefusal::HostNeedsUnlisted(path, name) => needs(alloc, path, b" needs ", name),
        SplitRefusal::HostAlias(path, name) => needs(alloc, path, b" needs the alias ", name),
        SplitRefusal::SplitNeed(path, name, one, other) => {
            split_need(alloc, path, name, one, other)
        }
        SplitRefusal::SourceNotHost(difference) => no_host(alloc, difference),
    }
}

fn clash(alloc: Global, name: &Name, one: &Abs, other: &Abs) -> Result<Text, NoMemory>
    ensures { IfOk result
        (λ text. text ≡ split_evidence (SplitRefusal.HostNameClash name.now one.now other.now)) }
{
    let one = one.as_str().as_bytes();
    let end = with_fields(alloc, b" for ", one, b" and ", other.as_str().as_bytes())?;
    with_field(alloc, b"host name ", name.as_bytes(), end.as_bytes())
}

/// A host library and what it needs.
fn needs(alloc: Global, path: &Abs, between: &[u8], name: &Name) -> Result<Text, NoMemory>
    ensures { IfOk result (λ text. text
        ≡ with_fields (codes "host library ") path.now between.now name.now []) }
{
    with_fields(
        alloc,
        b"host library ",
        path.as_str().as_bytes(),
        between,
        name.as_bytes(),
    )
}

fn split_need(
    alloc: Global,
    path: &Abs,
    name: &Name,
    one: &Abs,
    other: &Abs,
) -> Result<Text, NoMemory>
    ensures { IfOk result (λ text. text
        ≡ split_evidence (SplitRefusal.SplitNeed path.now name.now one.now other.now)) }
{
    let one = one.as_str().as_bytes();
    let objects = with_fields(alloc, b" as ", one, b" and ", other.as_str().as_bytes())?;
    let end = with_field(alloc, b" needs ", name.as_bytes(), objects.as_bytes())?;
    with_field(alloc, b"", path.as_str().as_bytes(), end.as_bytes())
}

fn no_host(alloc: Global, difference: &Difference) -> Result<Text, NoMemory>
    ensures { IfOk result
        (λ text. text ≡ split_evidence (SplitRefusal.SourceNotHost difference.now)) }
{
    let difference = difference_text(alloc, difference)?;
    let mut text = Vec::from_slice(alloc, b"source is no host: ")?;
    text.extend_from_slice(difference.as_bytes())?;
    Ok(Text::from_vec(text))
}
