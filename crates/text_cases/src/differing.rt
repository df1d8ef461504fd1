//! The difference of a row, by its name and its evidence.

use crate::evidence::Evidence;
use case_rows::Fault;
use host_list::{Answer, Difference};
use load_model::{Class, Flaw, Name};
use std::alloc::Global;

/// How a name is looked up.
#[derive(Drop)]
struct Lookup {
    version: Option<Name>,
    class: Class,
}

/// What is recorded of a look, and what is found.
#[derive(Drop)]
struct Answers {
    recorded: Answer,
    found: Answer,
}

/// The difference with this name.
pub fn difference_of(
    alloc: Global,
    kind: &str,
    evidence: &Evidence<'_>,
) -> Result<Difference, Fault> {
    match kind {
        "NoInterp" => Ok(Difference::NoInterp(evidence.path(alloc, 0)?)),
        "NoLib" => Ok(Difference::NoLib(evidence.name(alloc, 0)?)),
        "DamagedLib" => damaged(alloc, evidence),
        "HasRunPath" => Ok(Difference::HasRunPath(evidence.name(alloc, 0)?)),
        "NeedsDiffer" => needs_differ(alloc, evidence),
        _ => difference_of_two(alloc, kind, evidence),
    }
}

/// The difference with this name, which has two names at least.
fn difference_of_two(
    alloc: Global,
    kind: &str,
    evidence: &Evidence<'_>,
) -> Result<Difference, Fault> {
    let one = evidence.name(alloc, 0)?;
    let other = evidence.name(alloc, 1)?;
    match kind {
        "SonameDiffers" => Ok(Difference::SonameDiffers(one, other)),
        "SameFile" => Ok(Difference::SameFile(one, other)),
        "NoVersion" => Ok(Difference::NoVersion(one, other)),
        "OwnVersion" => own_version(alloc, one, other, evidence),
        "AnswerDiffers" => answer_differs(alloc, one, other, evidence),
        _ => Err(Fault::Field("difference")),
    }
}

fn damaged(alloc: Global, evidence: &Evidence<'_>) -> Result<Difference, Fault> {
    let code = evidence.byte(0)?;
    let a = evidence.number(1)?;
    let b = evidence.number(2)?;
    Ok(Difference::DamagedLib(evidence.path(alloc, 0)?, Flaw { code, a, b }))
}

fn needs_differ(alloc: Global, evidence: &Evidence<'_>) -> Result<Difference, Fault> {
    let place = evidence.word(0)?;
    Ok(Difference::NeedsDiffer(evidence.name(alloc, 0)?, place))
}

fn own_version(
    alloc: Global,
    lib: Name,
    file: Name,
    evidence: &Evidence<'_>,
) -> Result<Difference, Fault> {
    Ok(Difference::OwnVersion(lib, file, evidence.name(alloc, 2)?))
}

fn answer_differs(
    alloc: Global,
    lib: Name,
    name: Name,
    evidence: &Evidence<'_>,
) -> Result<Difference, Fault> {
    let lookup = lookup_of(alloc, evidence)?;
    let answers = answers_of(alloc, evidence)?;
    Ok(Difference::AnswerDiffers(
        lib,
        name,
        lookup.version,
        lookup.class,
        answers.recorded,
        answers.found,
    ))
}

/// The class, and the version of a row that has one.
fn lookup_of(alloc: Global, evidence: &Evidence<'_>) -> Result<Lookup, Fault> {
    let class = class_of(evidence.text(2)?)?;
    let version = evidence.name_if_any(alloc, 5)?;
    Ok(Lookup { version, class })
}

fn class_of(letter: &str) -> Result<Class, Fault> {
    match letter {
        "c" => Ok(Class::Call),
        "k" => Ok(Class::Copy),
        "p" => Ok(Class::Plain),
        _ => Err(Fault::Field("class")),
    }
}

fn answers_of(alloc: Global, evidence: &Evidence<'_>) -> Result<Answers, Fault> {
    let recorded = answer_of(alloc, evidence.text(3)?)?;
    let found = answer_of(alloc, evidence.text(4)?)?;
    Ok(Answers { recorded, found })
}

/// `none`, `plain`, or `=` and a version as it is.
fn answer_of(alloc: Global, text: &str) -> Result<Answer, Fault> {
    match text {
        "none" => Ok(Answer::Nothing),
        "plain" => Ok(Answer::Plain),
        _ => version_of(alloc, text),
    }
}

fn version_of(alloc: Global, text: &str) -> Result<Answer, Fault> {
    match text.as_bytes().strip_prefix(b"=") {
        Some(version) => Ok(Answer::Version(Name::from_bytes(alloc, version)?)),
        None => Err(Fault::Field("answer")),
    }
}
