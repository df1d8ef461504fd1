//! What a build demands of the first group. Definition: `specs/Checking.antt`.

ghost use Rattle.std.specs.Prelude.{◌≡◌, Some, bytes_eq};
ghost use Rattle.std.specs.List.{list_any};
ghost use Rattle.answers.specs.Answers.{TellsBy};
ghost use Rattle.desk_entry.specs.Checking.{check_fault, has_value, lacks, lacks_exec, names_another};

use crate::entries::{Entries, exec_word, value_of};
use load_model::Name;

/// Why a group does not fit: the faults in the order in which they are tried.
#[derive(Clone, Copy, PartialEq, Eq, Debug)]
pub enum CheckFault {
    MissingKey(DeskKey),
    /// The first word of `Exec` is no program's name.
    ExecUnknown,
    /// `Icon` is not the icon's name.
    IconDiffers,
}

/// The keys `Type`, `Name`, `Icon` and `Exec`.
#[derive(Clone, Copy, PartialEq, Eq, Debug)]
pub enum DeskKey {
    KeyType,
    KeyName,
    KeyIcon,
    KeyExec,
}

/// Whether the group has what a build demands of it: the keys, a program of these names, and the
/// icon of this name. The first fault is answered.
pub fn check_entry(entries: &Entries, programs: &[Name], stem: &[u8]) -> Result<(), CheckFault>
    ensures { TellsBy Some result (check_fault entries.now.pairs programs.now stem.now) }
{
    if lacks(entries, b"Type") {
        return Err(CheckFault::MissingKey(DeskKey::KeyType));
    }
    if lacks(entries, b"Name") {
        return Err(CheckFault::MissingKey(DeskKey::KeyName));
    }
    if lacks(entries, b"Icon") {
        return Err(CheckFault::MissingKey(DeskKey::KeyIcon));
    }
    if lacks_exec(entries) {
        return Err(CheckFault::MissingKey(DeskKey::KeyExec));
    }
    if names_another(entries, programs) {
        return Err(CheckFault::ExecUnknown);
    }
    if !has_value(entries, b"Icon", stem) {
        return Err(CheckFault::IconDiffers);
    }
    Ok(())
}

fn lacks(entries: &Entries, key: &[u8]) -> bool
    ensures { result ≡ lacks entries.now.pairs key.now }
{
    value_of(entries, key).is_none()
}

/// Whether a key has this value.
fn has_value(entries: &Entries, key: &[u8], value: &[u8]) -> bool
    ensures { result ≡ has_value entries.now.pairs key.now value.now }
{
    match value_of(entries, key) {
        Some(found) => found == value,
        None => false,
    }
}

/// Whether a program that is not started by D-Bus says nothing of how it is started.
fn lacks_exec(entries: &Entries) -> bool
    ensures { result ≡ lacks_exec entries.now.pairs }
{
    has_value(entries, b"Type", b"Application")
        && !has_value(entries, b"DBusActivatable", b"true")
        && lacks(entries, b"Exec")
}

/// Whether `Exec` names none of the programs.
fn names_another(entries: &Entries, programs: &[Name]) -> bool
    ensures { result ≡ names_another entries.now.pairs programs.now }
{
    match exec_word(entries) {
        Some(word) => !is_name_of(programs, word),
        None => false,
    }
}

fn is_name_of(programs: &[Name], word: &[u8]) -> bool
    ensures { result ≡ list_any (λ name. bytes_eq name word.now) programs.now }
{
    programs.iter().any(|name| name.as_bytes() == word)
}
