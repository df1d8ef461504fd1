//! How a difference between a host and a record is said. Definitions: `specs/Differences.antt`.

ghost use Rattle.std.specs.Prelude.{◌≡◌, [], ◌++◌, IfOk, OnOk, codes};
ghost use Rattle.load_model.specs.Escaping.{version_text};
ghost use Rattle.host_record.specs.Lines.{answer_field};
ghost use Rattle.refusals.specs.Damage.{flaw_text};
ghost use Rattle.refusals.specs.Differences.{answers_text, class_text, difference_text, look_text};
ghost use Rattle.refusals.specs.Fields.{with_field, with_fields, with_number};

use crate::damage::flaw_text;
use crate::fields::{with_field, with_fields, with_number};
use host_list::{Answer, Difference};
use load_model::{Class, Flaw, Name, Text, escape_onto};
use path_text::{Abs, NoMemory};
use std::alloc::Global;

/// What a difference says.
#[tactic(auto, unfolding(crate::specs::Differences::difference_text))]
pub fn difference_text(alloc: Global, difference: &Difference) -> Result<Text, NoMemory>
    ensures { IfOk result (λ text. text ≡ difference_text difference.now) }
{
    match difference {
        Difference::NoInterp(path) => {
            with_field(
                alloc,
                b"interpreter ",
                path.as_str().as_bytes(),
                b" is absent",
            )
        }
        Difference::NoLib(name) => with_field(alloc, b"library ", name.as_bytes(), b" is absent"),
        Difference::DamagedLib(path, flaw) => damaged(alloc, path, flaw),
        Difference::SonameDiffers(name, found) => {
            with_fields(
                alloc,
                b"library ",
                name.as_bytes(),
                b" has the soname ",
                found.as_bytes(),
            )
        }
        Difference::HasRunPath(name) => {
            with_field(alloc, b"library ", name.as_bytes(), b" has a run path")
        }
        Difference::NeedsDiffer(name, place) => other_needs(alloc, name, *place),
        Difference::SameFile(one, other) => one_file(alloc, one, other),
        Difference::NoVersion(lib, version) => {
            with_fields(
                alloc,
                b"library ",
                lib.as_bytes(),
                b" lacks ",
                version.as_bytes(),
            )
        }
        Difference::AnswerDiffers(lib, name, version, class, recorded, found) => {
            let end = look_text(alloc, version, *class, recorded, found)?;
            library(alloc, lib, b" answers ", name, end.as_bytes())
        }
        Difference::OwnVersion(lib, file, version) => {
            let end = with_field(alloc, b" for ", version.as_bytes(), b"")?;
            library(alloc, lib, b" asks ", file, end.as_bytes())
        }
    }
}

fn damaged(alloc: Global, path: &Abs, flaw: &Flaw) -> Result<Text, NoMemory>
    ensures { IfOk result (λ text. text
        ≡ with_field (codes "library ") path.now (codes " is damaged: " ++ flaw_text flaw.now)) }
{
    let flaw = flaw_text(alloc, flaw)?;
    let mut end = Vec::from_slice(alloc, b" is damaged: ")?;
    end.extend_from_slice(flaw.as_bytes())?;
    with_field(alloc, b"library ", path.as_str().as_bytes(), end.as_slice())
}

fn other_needs(alloc: Global, name: &Name, place: u32) -> Result<Text, NoMemory>
    ensures { IfOk result (λ text. text
        ≡ with_field (codes "library ") name.now
        (with_number (codes " has other needs from ") place)) }
{
    let end = with_number(alloc, b" has other needs from ", place)?;
    with_field(alloc, b"library ", name.as_bytes(), end.as_bytes())
}

fn one_file(alloc: Global, one: &Name, other: &Name) -> Result<Text, NoMemory>
    ensures { IfOk result (λ text. text
        ≡ with_fields (codes "libraries ") one.now (codes " and ") other.now
        (codes " are one file")) }
{
    let end = with_field(alloc, b" and ", other.as_bytes(), b" are one file")?;
    with_field(alloc, b"libraries ", one.as_bytes(), end.as_bytes())
}

/// A library, and what is said of it and of another name.
fn library(
    alloc: Global,
    lib: &Name,
    between: &[u8],
    name: &Name,
    after: &[u8],
) -> Result<Text, NoMemory>
    ensures { IfOk result (λ text. text
        ≡ with_fields (codes "library ") lib.now between.now name.now after.now) }
{
    let end = with_field(alloc, between, name.as_bytes(), after)?;
    with_field(alloc, b"library ", lib.as_bytes(), end.as_bytes())
}

/// The version and the class of a look, and its answers.
fn look_text(
    alloc: Global,
    version: &Option<Name>,
    class: Class,
    recorded: &Answer,
    found: &Answer,
) -> Result<Text, NoMemory>
    ensures { IfOk result
        (λ text. text ≡ look_text version.now class recorded.now found.now) }
{
    let mut text = Vec::from_slice(alloc, b" ")?;
    push_version(&mut text, version)?;
    text.extend_from_slice(class_field(class))?;
    push_answers(&mut text, recorded, found)?;
    Ok(Text::from_vec(text))
}

/// Adds a version, or `-` for none.
fn push_version(text: &mut Vec<u8>, version: &Option<Name>) -> Result<(), NoMemory>
    ensures { OnOk result (text.new.items ≡ text.old.items ++ version_text version.now) }
{
    match version {
        Some(name) => escape_onto(text, name.as_bytes()),
        None => {
            text.extend_from_slice(b"-")?;
            Ok(())
        }
    }
}

/// A class behind a space.
fn class_field(class: Class) -> &'static [u8]
    ensures { result.now ≡ codes " " ++ class_text class }
{
    match class {
        Class::Plain => b" p",
        Class::Call => b" c",
        Class::Copy => b" k",
    }
}

fn push_answers(text: &mut Vec<u8>, recorded: &Answer, found: &Answer) -> Result<(), NoMemory>
    ensures { OnOk result
        (text.new.items ≡ text.old.items ++ answers_text recorded.now found.now) }
{
    text.extend_from_slice(b" with ")?;
    push_answer(text, found)?;
    text.extend_from_slice(b", recorded ")?;
    push_answer(text, recorded)
}

fn push_answer(text: &mut Vec<u8>, answer: &Answer) -> Result<(), NoMemory>
    ensures { OnOk result (text.new.items ≡ text.old.items ++ answer_field answer.now) }
{
    match answer {
        Answer::Nothing => text.extend_from_slice(b"none")?,
        Answer::Plain => text.extend_from_slice(b"=-")?,
        Answer::Version(name) => {
            text.extend_from_slice(b"=")?;
            escape_onto(text, name.as_bytes())?;
        }
    }
    Ok(())
}
