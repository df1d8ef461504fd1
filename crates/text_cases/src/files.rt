//! The refusal of a row that is one of files or of a folder, by its name and its evidence.

use crate::differing::difference_of;
use crate::evidence::Evidence;
use case_rows::Fault;
use desk_entry::DeskKey;
use refusals::{FileRefusal, FolderRefusal};
use std::alloc::Global;

/// The refusal of files with this name, if it is one.
pub fn file_of(
    alloc: Global,
    kind: &str,
    evidence: &Evidence<'_>,
) -> Result<Option<FileRefusal>, Fault> {
    match kind {
        "FileAbsent" => Ok(Some(FileRefusal::FileAbsent(evidence.path(alloc, 0)?))),
        "DeskNotUtf8" => Ok(Some(FileRefusal::DeskNotUtf8)),
        "NoGroup" => Ok(Some(FileRefusal::NoGroup)),
        "DeskLine" | "TwoGroups" | "TwoKeys" => Ok(Some(of_a_line(kind, evidence.word(0)?))),
        "DeskMissingKey" => missing_key(evidence),
        _ => later_file_of(alloc, kind, evidence),
    }
}

/// One that comes after the reading of the desktop file.
fn later_file_of(
    alloc: Global,
    kind: &str,
    evidence: &Evidence<'_>,
) -> Result<Option<FileRefusal>, Fault> {
    match kind {
        "ExecUnknown" => Ok(Some(FileRefusal::ExecUnknown(evidence.name(alloc, 0)?))),
        "IconDiffers" => Ok(Some(FileRefusal::IconDiffers(evidence.name(alloc, 0)?))),
        "TargetClash" => Ok(Some(FileRefusal::TargetClash(evidence.target(alloc, 0)?))),
        "TargetInLib" => Ok(Some(FileRefusal::TargetInLib(evidence.target(alloc, 0)?))),
        _ => Ok(None),
    }
}

/// A refusal of a line of the desktop file.
fn of_a_line(kind: &str, line: u32) -> FileRefusal {
    match kind {
        "DeskLine" => FileRefusal::DeskLine(line),
        "TwoGroups" => FileRefusal::TwoGroups(line),
        _ => FileRefusal::TwoKeys(line),
    }
}

fn missing_key(evidence: &Evidence<'_>) -> Result<Option<FileRefusal>, Fault> {
    let key = key_of(evidence.text(0)?)?;
    Ok(Some(FileRefusal::DeskMissingKey(key)))
}

fn key_of(word: &str) -> Result<DeskKey, Fault> {
    match word {
        "Type" => Ok(DeskKey::KeyType),
        "Name" => Ok(DeskKey::KeyName),
        "Icon" => Ok(DeskKey::KeyIcon),
        "Exec" => Ok(DeskKey::KeyExec),
        _ => Err(Fault::Field("key")),
    }
}

/// The refusal of a folder with this name.
pub fn folder_of(
    alloc: Global,
    kind: &str,
    evidence: &Evidence<'_>,
) -> Result<FolderRefusal, Fault> {
    match kind {
        "NotEmpty" => Ok(FolderRefusal::NotEmpty(evidence.path(alloc, 0)?)),
        "RecordAbsent" => Ok(FolderRefusal::RecordAbsent(evidence.path(alloc, 0)?)),
        "RecordLine" => Ok(FolderRefusal::RecordLine(evidence.word(0)?)),
        "HostFails" => host_fails(alloc, evidence),
        "FileChanged" => Ok(FolderRefusal::FileChanged(evidence.path(alloc, 0)?)),
        _ => Err(Fault::Field("refusal")),
    }
}

fn host_fails(alloc: Global, evidence: &Evidence<'_>) -> Result<FolderRefusal, Fault> {
    let difference = difference_of(alloc, evidence.difference()?, evidence)?;
    Ok(FolderRefusal::HostFails(difference))
}
