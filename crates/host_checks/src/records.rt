//! The record of a directory, read from the tree. Definitions: `specs/Reading.antt`.

ghost use Rattle.std.specs.Prelude.{◌≡◌, IfOk, length};
ghost use Rattle.answers.specs.Told.{WhereTold};
ghost use Rattle.host_meeting.specs.Verdicts.{IsWhole};
ghost use Rattle.ports.specs.Reading.{bytes_at};
ghost use Rattle.ports.specs.View.{OnlyReads};
ghost use Rattle.host_checks.specs.Hosting.{record_path};
ghost use Rattle.host_checks.specs.Reading.{IsFileAnswer, IsRecordAnswer, IsTextAnswer};

use crate::stops::RecordStop;
use host_record::{Record, RecordFault, read_record};
use path_text::{Abs, NoMemory};
use ports::{Found, ProbeStop, Tree};
use std::alloc::Global;
use tree_opener::{ReadStop, read_whole};

/// Reads the record of the directory at a place.
pub fn record_at<T: Tree>(alloc: Global, tree: &mut T, place: &Abs) -> Result<Record, RecordStop>
    ensures answer { IsRecordAnswer (T.seen tree.old) (T.seen tree.new) place.now result }
    ensures whole { IfOk result (λ rec. IsWhole rec) }
    ensures only_reads { OnlyReads (T.seen tree.old) (T.seen tree.new) }
{
    let path = match record_path(alloc, place) {
        Ok(path) => path,
        Err(_) => return Err(RecordStop::NoMemory),
    };
    match tree.probe(alloc, &path) {
        Ok(Found::Absent) => Err(RecordStop::Absent(path)),
        Ok(Found::File { id: _, len }) => record_in(alloc, tree, &path, len),
        Err(ProbeStop::Failed) => Err(RecordStop::Read),
        Err(ProbeStop::NoMemory) => Err(RecordStop::NoMemory),
    }
}

/// Where the record of the directory at a place lies.
fn record_path(alloc: Global, place: &Abs) -> Result<Abs, NoMemory>
    ensures { IfOk result (λ path. path ≡ record_path place.now) }
{
    // asked for since it tells that the place is in normal form
    let _text = place.as_str();
    match place.join(alloc, b"usr/share/appdir/host.txt") {
        Ok(path) => Ok(path),
        // the joined path reads, so that memory was refused
        Err(_) => Err(NoMemory),
    }
}

/// Reads the record in the file of this length.
fn record_in<T: Tree>(
    alloc: Global,
    tree: &mut T,
    path: &Abs,
    len: u64,
) -> Result<Record, RecordStop>
    requires { WhereTold (T.seen tree.old).told (λ world. length (bytes_at world path.now) ≡ len) }
    ensures answer { IsFileAnswer (T.seen tree.old) (T.seen tree.new) path.now result }
    ensures whole { IfOk result (λ rec. IsWhole rec) }
    ensures only_reads { OnlyReads (T.seen tree.old) (T.seen tree.new) }
{
    match read_whole(alloc, tree, path, len) {
        Ok(bytes) => record_of(alloc, bytes.as_slice()),
        Err(ReadStop::Failed) => Err(RecordStop::Read),
        Err(ReadStop::NoMemory) => Err(RecordStop::NoMemory),
    }
}

/// The record that a text says.
fn record_of(alloc: Global, text: &[u8]) -> Result<Record, RecordStop>
    ensures answer { IsTextAnswer text.now result }
    ensures whole { IfOk result (λ rec. IsWhole rec) }
{
    match read_record(alloc, text) {
        Ok(rec) => Ok(rec),
        Err(RecordFault::Line(number)) => Err(RecordStop::Line(number)),
        Err(RecordFault::NoMemory) => Err(RecordStop::NoMemory),
    }
}
