//! The version files of an object, as names of what they name.
//!
//! Linux Standard Base, Symbol Versioning. Said in `specs/Changing.antt` and
//! `specs/NamedFiles.antt`.

ghost use Rattle.std.specs.Prelude.{◌≡◌, List, ℕ, IfOk, OnOk, flat_map, map};
ghost use Rattle.std.specs.Option.{option_map, option_to_list};
ghost use Rattle.load_model.specs.declared.asks.Ask.{Ask};
ghost use Rattle.lib_closure.specs.Seen.{standing};
ghost use Rattle.object_changes.specs.Changing.{own_files, told_files};
ghost use Rattle.object_changes.specs.NamedFiles.{AddsFiles, asked_name, files_named_at, named_file, told_name};
ghost use Rattle.object_changes.specs.OfNames.{of_names};

use crate::file_tables::{AskedFile, FileTable};
use crate::needs::name_or;
use crate::object_names::ObjectNames;
use lib_closure::Seen;
use load_model::{Ask, List, Name, NoMemory};
use std::alloc::Global;

/// The version files of a program, by its own load list.
pub fn own_files<'a>(
    alloc: Global,
    names: &ObjectNames<'a>,
    seen: &Seen<'a>,
) -> Result<List<Name>, NoMemory>
    ensures { IfOk result (λ files. files ≡ of_names own_files names.now (standing seen.now)) }
{
    let named = seen.files();
    let mut files = List::new(alloc);
    for (place, ask) in seen.face.asks.as_slice().iter().enumerate() {
        let number = match named.get(place) {
            Some(number) => *number,
            None => return Ok(files),
        };
        let name = name_or(asked_name(names, seen, number), &ask.file);
        files.push(name.copy(alloc)?)?;
    }
    Ok(files)
}

/// The name of the object that a version file names.
fn asked_name<'a>(names: &ObjectNames<'a>, seen: &Seen<'a>, number: Option<u32>) -> Option<&'a Name>
    ensures { (ask : Ask) → option_map (λ name. name.now) result
        ≡ of_names asked_name names.now (standing seen.now) (ask, number) }
{
    match number {
        Some(number) => names.name_beside(seen, number),
        None => None,
    }
}

/// The version files of a library, by the names that were told first.
#[tactic(auto, unfolding(crate::specs::Changing::told_files))]
pub fn told_files(
    alloc: Global,
    table: &FileTable<'_>,
    seen: &Seen<'_>,
) -> Result<List<Name>, NoMemory>
    ensures { IfOk result (λ files. files ≡ told_files table.now (standing seen.now)) }
{
    let asker = seen.obj.id.as_bytes();
    let mut files = List::new(alloc);
    for ask in seen.face.asks.as_slice() {
        let file = ask.file.as_bytes();
        let name = name_or(table.first(AskedFile { asker, file }), &ask.file);
        files.push(name.copy(alloc)?)?;
    }
    Ok(files)
}

/// The version files by which objects ask, with the names of what they name.
pub fn all_files<'a>(
    alloc: Global,
    names: &ObjectNames<'a>,
    all: &[Seen<'a>],
) -> Result<FileTable<'a>, NoMemory>
    ensures { IfOk result (λ table. (asker file : List ℕ) → told_name table asker file
        ≡ told_name (flat_map (of_names files_named_at names.now) (map standing all.now))
        asker file) }
{
    let mut table = FileTable::new(alloc);
    for seen in all {
        add_files(&mut table, names, seen)?;
    }
    Ok(table)
}

/// Adds those of an object where it stands.
fn add_files<'a>(
    table: &mut FileTable<'a>,
    names: &ObjectNames<'a>,
    seen: &Seen<'a>,
) -> Result<(), NoMemory>
    ensures { OnOk result (AddsFiles table.old table.new
        (of_names files_named_at names.now (standing seen.now))) }
{
    let named = seen.files();
    for (place, ask) in seen.face.asks.as_slice().iter().enumerate() {
        let number = match named.get(place) {
            Some(number) => *number,
            None => return Ok(()),
        };
        add_file(table, names, seen, (ask, number))?;
    }
    Ok(())
}

/// Adds the file of an ask, where it names an object.
fn add_file<'a>(
    table: &mut FileTable<'a>,
    names: &ObjectNames<'a>,
    seen: &Seen<'a>,
    asked: (&'a Ask, Option<u32>),
) -> Result<(), NoMemory>
    ensures { OnOk result (AddsFiles table.old table.new (option_to_list
        (of_names named_file names.now (standing seen.now)
        (asked.entry.0.now, asked.entry.1)))) }
{
    let asker = seen.obj.id.as_bytes();
    let file = asked.0.file.as_bytes();
    match asked_name(names, seen, asked.1) {
        Some(name) => table.add(AskedFile { asker, file }, name),
        None => Ok(()),
    }
}
