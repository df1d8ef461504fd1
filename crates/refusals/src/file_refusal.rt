//! Why the files of an AppDir are none, or cannot lie side by side: the refusals, the number and
//! the evidence of each. Definitions: `specs/FileRefusal.antt`.

ghost use Rattle.std.specs.Prelude.{◌≡◌, [], ◌++◌, IfOk, codes};
ghost use Rattle.refusals.specs.Fields.{with_field, with_number};
ghost use Rattle.refusals.specs.FileRefusal.{file_evidence, file_number, key_word};

use crate::fields::{with_field, with_number};
use crate::numbers::{
    DESK_LINE, DESK_MISSING_KEY, DESK_NOT_UTF8, EXEC_UNKNOWN, FILE_ABSENT, ICON_DIFFERS, NO_GROUP,
    TARGET_CLASH, TARGET_IN_LIB, TWO_GROUPS, TWO_KEYS,
};
use desk_entry::DeskKey;
use load_model::{Name, Text};
use path_text::{Abs, NoMemory, Rel};
use std::alloc::Global;

/// Why a file does not come into an AppDir: each with its evidence.
#[derive(Drop)]
pub enum FileRefusal {
    /// The desktop file, the icon or a data file is absent: its path.
    FileAbsent(Abs),
    /// The desktop file is not UTF-8.
    DeskNotUtf8,
    /// A line of the desktop file is of no kind, or stands where it may not: its number, from 1.
    DeskLine(u32),
    /// The desktop file has no group.
    NoGroup,
    /// A group of the desktop file has the name of an earlier one: the number of its line.
    TwoGroups(u32),
    /// A key stands twice in a group of the desktop file: the number of the second line.
    TwoKeys(u32),
    /// The first group of the desktop file lacks a key.
    DeskMissingKey(DeskKey),
    /// The desktop file starts something else than a program of the AppDir: the word.
    ExecUnknown(Name),
    /// The desktop file names another icon: the name.
    IconDiffers(Name),
    /// An earlier item has the same path in the AppDir, or a folder of the one is the path of the
    /// other: the path.
    TargetClash(Rel),
    /// A data file lies in the folder of bundled libraries itself: its path in the AppDir.
    TargetInLib(Rel),
}

/// The number of a refusal.
pub fn file_number(refusal: &FileRefusal) -> u8
    ensures { result ≡ file_number refusal.now }
{
    match refusal {
        FileRefusal::FileAbsent(_) => FILE_ABSENT,
        FileRefusal::DeskNotUtf8 => DESK_NOT_UTF8,
        FileRefusal::DeskLine(_) => DESK_LINE,
        FileRefusal::NoGroup => NO_GROUP,
        FileRefusal::TwoGroups(_) => TWO_GROUPS,
        FileRefusal::TwoKeys(_) => TWO_KEYS,
        FileRefusal::DeskMissingKey(_) => DESK_MISSING_KEY,
        FileRefusal::ExecUnknown(_) => EXEC_UNKNOWN,
        FileRefusal::IconDiffers(_) => ICON_DIFFERS,
        FileRefusal::TargetClash(_) => TARGET_CLASH,
        FileRefusal::TargetInLib(_) => TARGET_IN_LIB,
    }
}

/// What a refusal says.
pub fn file_evidence(alloc: Global, refusal: &FileRefusal) -> Result<Text, NoMemory>
    ensures { IfOk result (λ text. text ≡ file_evidence refusal.now) }
{
    match refusal {
        FileRefusal::FileAbsent(path) => {
            with_field(alloc, b"no file at ", path.as_str().as_bytes(), b"")
        }
        FileRefusal::DeskNotUtf8 => Text::from_bytes(alloc, b"desktop file is not UTF-8"),
        FileRefusal::DeskLine(line) => with_number(alloc, b"desktop file line ", *line),
        FileRefusal::NoGroup => Text::from_bytes(alloc, b"desktop file has no group"),
        FileRefusal::TwoGroups(line) => {
            with_number(alloc, b"desktop file has a second group at line ", *line)
        }
        FileRefusal::TwoKeys(line) => {
            with_number(alloc, b"desktop file has a second key at line ", *line)
        }
        FileRefusal::DeskMissingKey(key) => {
            with_field(alloc, b"desktop file lacks ", key_word(*key), b"")
        }
        FileRefusal::ExecUnknown(word) => with_field(alloc, b"Exec names ", word.as_bytes(), b""),
        FileRefusal::IconDiffers(word) => with_field(alloc, b"Icon is ", word.as_bytes(), b""),
        FileRefusal::TargetClash(path) => {
            with_field(alloc, b"two items at ", path.as_str().as_bytes(), b"")
        }
        FileRefusal::TargetInLib(path) => {
            with_field(alloc, b"data target ", path.as_str().as_bytes(), b"")
        }
    }
}

/// A key of a desktop file as it stands there.
fn key_word(key: DeskKey) -> &'static [u8]
    ensures { result.now ≡ key_word key }
{
    match key {
        DeskKey::KeyType => b"Type",
        DeskKey::KeyName => b"Name",
        DeskKey::KeyIcon => b"Icon",
        DeskKey::KeyExec => b"Exec",
    }
}
