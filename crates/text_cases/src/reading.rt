//! The refusal of a row, by its name and its evidence.

use crate::differing::difference_of;
use crate::evidence::Evidence;
use crate::files::{file_of, folder_of};
use case_rows::Fault;
use load_model::Name;
use path_text::Abs;
use refusals::{ConfigRefusal, NameRefusal, Refusal, RewriteRefusal, SplitRefusal};
use std::alloc::Global;

/// The refusal with this name.
pub fn refusal_of(alloc: Global, kind: &str, evidence: &Evidence<'_>) -> Result<Refusal, Fault> {
    match config_of(alloc, kind, evidence)? {
        Some(refusal) => Ok(Refusal::Config(refusal)),
        None => read_of(alloc, kind, evidence),
    }
}

/// One that comes after the configuration.
fn read_of(alloc: Global, kind: &str, evidence: &Evidence<'_>) -> Result<Refusal, Fault> {
    match split_of(alloc, kind, evidence)? {
        Some(refusal) => Ok(Refusal::Split(refusal)),
        None => later_of(alloc, kind, evidence),
    }
}

/// One that comes after the split.
fn later_of(alloc: Global, kind: &str, evidence: &Evidence<'_>) -> Result<Refusal, Fault> {
    match name_of(alloc, kind, evidence)? {
        Some(refusal) => Ok(Refusal::Names(refusal)),
        None => last_of(alloc, kind, evidence),
    }
}

/// One that comes after the names.
fn last_of(alloc: Global, kind: &str, evidence: &Evidence<'_>) -> Result<Refusal, Fault> {
    match rewrite_of(alloc, kind, evidence)? {
        Some(refusal) => Ok(Refusal::Rewrite(refusal)),
        None => other_of(alloc, kind, evidence),
    }
}

fn config_of(
    alloc: Global,
    kind: &str,
    evidence: &Evidence<'_>,
) -> Result<Option<ConfigRefusal>, Fault> {
    match kind {
        "ConfigAbsent" => Ok(Some(ConfigRefusal::ConfigAbsent(evidence.path(alloc, 0)?))),
        "NotToml" => Ok(Some(ConfigRefusal::NotToml)),
        "BadName" => bad_name(alloc, evidence),
        "MissingKey" | "WrongKind" | "UnknownKey" | "BadPath" | "TwoTargets" => {
            Ok(Some(of_a_key(kind, evidence.name(alloc, 0)?)))
        }
        _ => Ok(None),
    }
}

/// A refusal of a key alone, or of a place.
fn of_a_key(kind: &str, key: Name) -> ConfigRefusal {
    match kind {
        "MissingKey" => ConfigRefusal::MissingKey(key),
        "WrongKind" => ConfigRefusal::WrongKind(key),
        "UnknownKey" => ConfigRefusal::UnknownKey(key),
        "BadPath" => ConfigRefusal::BadPath(key),
        _ => ConfigRefusal::TwoTargets(key),
    }
}

fn bad_name(alloc: Global, evidence: &Evidence<'_>) -> Result<Option<ConfigRefusal>, Fault> {
    Ok(Some(ConfigRefusal::BadName(evidence.name(alloc, 0)?, evidence.name(alloc, 1)?)))
}

fn split_of(
    alloc: Global,
    kind: &str,
    evidence: &Evidence<'_>,
) -> Result<Option<SplitRefusal>, Fault> {
    match kind {
        "NoInterpreter" | "InterpreterUnlisted" | "ProgramNeeded" | "HostRpath" => {
            Ok(Some(of_a_file(kind, evidence.path(alloc, 0)?)))
        }
        "HostNeedsUnlisted" | "HostAlias" => of_a_need(alloc, kind, evidence),
        "HostNameClash" => host_name_clash(alloc, evidence),
        "SplitNeed" => split_need(alloc, evidence),
        "SourceNotHost" => source_not_host(alloc, evidence),
        _ => Ok(None),
    }
}

/// A refusal of a program or a library alone.
fn of_a_file(kind: &str, path: Abs) -> SplitRefusal {
    match kind {
        "NoInterpreter" => SplitRefusal::NoInterpreter(path),
        "InterpreterUnlisted" => SplitRefusal::InterpreterUnlisted(path),
        "ProgramNeeded" => SplitRefusal::ProgramNeeded(path),
        _ => SplitRefusal::HostRpath(path),
    }
}

/// A refusal of what a host library needs.
fn of_a_need(
    alloc: Global,
    kind: &str,
    evidence: &Evidence<'_>,
) -> Result<Option<SplitRefusal>, Fault> {
    let path = evidence.path(alloc, 0)?;
    let name = evidence.name(alloc, 1)?;
    match kind {
        "HostAlias" => Ok(Some(SplitRefusal::HostAlias(path, name))),
        _ => Ok(Some(SplitRefusal::HostNeedsUnlisted(path, name))),
    }
}

fn host_name_clash(alloc: Global, evidence: &Evidence<'_>) -> Result<Option<SplitRefusal>, Fault> {
    Ok(Some(SplitRefusal::HostNameClash(
        evidence.name(alloc, 0)?,
        evidence.path(alloc, 1)?,
        evidence.path(alloc, 2)?,
    )))
}

fn split_need(alloc: Global, evidence: &Evidence<'_>) -> Result<Option<SplitRefusal>, Fault> {
    Ok(Some(SplitRefusal::SplitNeed(
        evidence.path(alloc, 0)?,
        evidence.name(alloc, 1)?,
        evidence.path(alloc, 2)?,
        evidence.path(alloc, 3)?,
    )))
}

fn source_not_host(alloc: Global, evidence: &Evidence<'_>) -> Result<Option<SplitRefusal>, Fault> {
    let difference = difference_of(alloc, evidence.difference()?, evidence)?;
    Ok(Some(SplitRefusal::SourceNotHost(difference)))
}

fn name_of(
    alloc: Global,
    kind: &str,
    evidence: &Evidence<'_>,
) -> Result<Option<NameRefusal>, Fault> {
    match kind {
        "OpenAlias" => open_alias(alloc, evidence),
        "OpenNameOnHostList" => Ok(Some(NameRefusal::OpenNameOnHostList(evidence.name(alloc, 0)?))),
        "TwoOpenNames" => two_open_names(alloc, evidence),
        "NameClash" => name_clash(alloc, evidence),
        "BadFileName" => Ok(Some(NameRefusal::BadFileName(evidence.name(alloc, 0)?))),
        _ => Ok(None),
    }
}

fn open_alias(alloc: Global, evidence: &Evidence<'_>) -> Result<Option<NameRefusal>, Fault> {
    Ok(Some(NameRefusal::OpenAlias(evidence.name(alloc, 0)?, evidence.name(alloc, 1)?)))
}

fn two_open_names(alloc: Global, evidence: &Evidence<'_>) -> Result<Option<NameRefusal>, Fault> {
    Ok(Some(NameRefusal::TwoOpenNames(
        evidence.path(alloc, 0)?,
        evidence.name(alloc, 1)?,
        evidence.name(alloc, 2)?,
    )))
}

fn name_clash(alloc: Global, evidence: &Evidence<'_>) -> Result<Option<NameRefusal>, Fault> {
    Ok(Some(NameRefusal::NameClash(
        evidence.name(alloc, 0)?,
        evidence.path(alloc, 1)?,
        evidence.path(alloc, 2)?,
    )))
}

fn rewrite_of(
    alloc: Global,
    kind: &str,
    evidence: &Evidence<'_>,
) -> Result<Option<RewriteRefusal>, Fault> {
    match kind {
        "NoRoom" => Ok(Some(RewriteRefusal::NoRoom(evidence.path(alloc, 0)?))),
        "TableOverlap" => table_overlap(alloc, evidence),
        "TooManyHeaders" => Ok(Some(RewriteRefusal::TooManyHeaders(evidence.path(alloc, 0)?))),
        "TooLarge" => too_large(alloc, evidence),
        "StringsTooLong" => Ok(Some(RewriteRefusal::StringsTooLong(evidence.path(alloc, 0)?))),
        _ => Ok(None),
    }
}

fn table_overlap(alloc: Global, evidence: &Evidence<'_>) -> Result<Option<RewriteRefusal>, Fault> {
    let one = evidence.byte(0)?;
    let other = evidence.byte(1)?;
    let path = evidence.path(alloc, 0)?;
    Ok(Some(RewriteRefusal::TableOverlap(one, other, path)))
}

fn too_large(alloc: Global, evidence: &Evidence<'_>) -> Result<Option<RewriteRefusal>, Fault> {
    let len = evidence.number(0)?;
    let path = evidence.path(alloc, 0)?;
    Ok(Some(RewriteRefusal::TooLarge(path, len)))
}

/// A refusal of files or of a folder.
fn other_of(alloc: Global, kind: &str, evidence: &Evidence<'_>) -> Result<Refusal, Fault> {
    match file_of(alloc, kind, evidence)? {
        Some(refusal) => Ok(Refusal::Files(refusal)),
        None => Ok(Refusal::Folder(folder_of(alloc, kind, evidence)?)),
    }
}
