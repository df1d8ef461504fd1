//! Why an AppDir is not written, or does not fit a host: the refusals, the number and the evidence
//! of each. Definitions: `specs/FolderRefusal.antt`.

ghost use Rattle.std.specs.Prelude.{◌≡◌, [], ◌++◌, IfOk, codes};
ghost use Rattle.refusals.specs.Differences.{difference_text};
ghost use Rattle.refusals.specs.Fields.{with_field, with_number};
ghost use Rattle.refusals.specs.FolderRefusal.{folder_evidence, folder_number};

use crate::differences::difference_text;
use crate::fields::{with_field, with_number};
use crate::numbers::{FILE_CHANGED, HOST_FAILS, NOT_EMPTY, RECORD_ABSENT, RECORD_LINE};
use host_list::Difference;
use load_model::Text;
use path_text::{Abs, NoMemory};
use std::alloc::Global;

/// Why files are not written, or do not fit a host: each with its evidence.
#[derive(Drop)]
pub enum FolderRefusal {
    /// The output folder holds files: its path.
    NotEmpty(Abs),
    /// There is no record: its path.
    RecordAbsent(Abs),
    /// A line of the record is refused: its number, from 1.
    RecordLine(u32),
    /// A host does not meet the record: where it differs.
    HostFails(Difference),
    /// A file that is copied is another than it was when it was first looked at: its path.
    FileChanged(Abs),
}

/// The number of a refusal.
pub fn folder_number(refusal: &FolderRefusal) -> u8
    ensures { result ≡ folder_number refusal.now }
{
    match refusal {
        FolderRefusal::NotEmpty(_) => NOT_EMPTY,
        FolderRefusal::RecordAbsent(_) => RECORD_ABSENT,
        FolderRefusal::RecordLine(_) => RECORD_LINE,
        FolderRefusal::HostFails(_) => HOST_FAILS,
        FolderRefusal::FileChanged(_) => FILE_CHANGED,
    }
}

/// What a refusal says.
pub fn folder_evidence(alloc: Global, refusal: &FolderRefusal) -> Result<Text, NoMemory>
    ensures { IfOk result (λ text. text ≡ folder_evidence refusal.now) }
{
    match refusal {
        FolderRefusal::NotEmpty(path) => {
            with_field(alloc, b"", path.as_str().as_bytes(), b" is not empty")
        }
        FolderRefusal::RecordAbsent(path) => {
            with_field(alloc, b"no record at ", path.as_str().as_bytes(), b"")
        }
        FolderRefusal::RecordLine(line) => with_number(alloc, b"record line ", *line),
        FolderRefusal::HostFails(difference) => difference_text(alloc, difference),
        FolderRefusal::FileChanged(path) => {
            with_field(
                alloc,
                b"",
                path.as_str().as_bytes(),
                b" changed during the call",
            )
        }
    }
}
