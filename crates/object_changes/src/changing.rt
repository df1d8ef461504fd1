//! The texts of all programs and bundled libraries.
//!
//! Said in `specs/Changing.antt`.

ghost use Rattle.std.specs.Prelude.{◌≡◌, ◌<◌, ◌^◌, ◌==◌, [], List, All, IfOk, Ok, cond, flat_map, length, map, ℕ};
ghost use Rattle.std.specs.List.{filter_map};
ghost use Rattle.std.specs.Option.{option_map};
ghost use Rattle.load_model.specs.Runs.{IsRunOver};
ghost use Rattle.lib_closure.specs.Firsts.{AreFirsts};
ghost use Rattle.lib_closure.specs.Objects.{each_first, objects_of, occurrence_at};
ghost use Rattle.lib_closure.specs.Seen.{standing};
ghost use Rattle.lib_closure.specs.Splits.{split_of};
ghost use Rattle.object_changes.specs.Changing.{change_of_lib, change_of_program, changes_of, changes_of_libs, changes_of_programs, new_soname, run_path_of_first, run_path_of_others};
ghost use Rattle.object_changes.specs.Fitting.{AreFitting, AreNameTexts};
ghost use Rattle.object_changes.specs.NamedFiles.{files_named_at};
ghost use Rattle.object_changes.specs.OfNames.{of_names};

use crate::changes::Changes;
use crate::file_tables::FileTable;
use crate::files::{all_files, own_files, told_files};
use crate::needs::{name_or, new_needs};
use crate::object_names::ObjectNames;
use crate::run_paths::{run_path_of_lib, run_path_of_program};
use elf_rewrite::Change;
use lib_closure::{Firsts, LoadList, Member, Seen, Split, all_seen, lists_of, programs_seen};
use load_model::{Face, List, Name, NoMemory, Run};
use name_layout::Layout;
use std::alloc::Global;

/// The texts that each program and each bundled library of a split of these runs gets.
///
/// Goes through objects, needs and asks a fixed number of times.
#[tactic(auto, unfolding(crate::specs::Changing::changes_of))]
pub fn change_all(
    alloc: Global,
    faces: &[Face],
    runs: &[Run],
    split: &Split,
    layout: &Layout,
) -> Result<Changes, NoMemory>
    requires runs { All (IsRunOver faces.now) runs.now }
    requires split { (names : List (List ℕ)) × (split_of faces.now runs.now names
        ≡ Ok split.now) }
    requires texts { AreNameTexts faces.now split.now layout.now }
    ensures changes { IfOk result (λ changes. changes
        ≡ changes_of faces.now runs.now split.now layout.now) }
    ensures fits { IfOk result (λ changes. AreFitting faces.now split.now changes) }
{
    let names = ObjectNames::of(alloc, split, layout)?;
    let lists_of_runs = lists_of(alloc, faces, runs)?;
    let lists = lists_of_runs.as_slice();
    let programs = changes_of_programs(alloc, &names, lists)?;
    let libs = changes_of_libs(alloc, &names, lists)?;
    Ok(Changes { programs, libs })
}

/// The changes of the first objects of these load lists.
fn changes_of_programs<'a>(
    alloc: Global,
    names: &ObjectNames<'a>,
    lists: &'a [LoadList<'a>],
) -> Result<List<Change>, NoMemory>
    ensures { IfOk result (λ changes. changes ≡ of_names changes_of_programs names.now
        (filter_map (λ list. occurrence_at list.faces.now list.run.now 0) lists.now)) }
{
    let programs = programs_seen(alloc, lists)?;
    program_changes(alloc, names, programs.as_slice())
}

/// The changes of these programs.
fn program_changes<'a>(
    alloc: Global,
    names: &ObjectNames<'a>,
    programs: &[Seen<'a>],
) -> Result<List<Change>, NoMemory>
    ensures { IfOk result (λ changes. changes ≡ of_names changes_of_programs names.now
        (map standing programs.now)) }
{
    let mut changes = List::new(alloc);
    for (place, seen) in programs.iter().enumerate() {
        changes.push(change_of_program(alloc, names, seen, run_path_at(place))?)?;
    }
    Ok(changes)
}

/// The run path of the program at this place.
fn run_path_at(place: usize) -> &'static [u8]
    ensures { result.now ≡ cond (place == 0) run_path_of_first run_path_of_others }
{
    if place == 0 {
        b"$ORIGIN/usr/lib"
    } else {
        b"$ORIGIN/../lib"
    }
}

/// The change of a program, with this run path where it has one.
#[tactic(auto, unfolding(crate::specs::Changing::change_of_program))]
fn change_of_program<'a>(
    alloc: Global,
    names: &ObjectNames<'a>,
    seen: &Seen<'a>,
    run_path: &[u8],
) -> Result<Change, NoMemory>
    ensures { IfOk result (λ change. change ≡ of_names change_of_program names.now run_path.now
        (standing seen.now)) }
{
    Ok(Change {
        needs: new_needs(alloc, names, seen)?,
        soname: None,
        runpath: run_path_of_program(alloc, names, seen, run_path)?,
        files: own_files(alloc, names, seen)?,
    })
}

/// The changes of the bundled libraries, by the objects of these load lists.
fn changes_of_libs<'a>(
    alloc: Global,
    names: &ObjectNames<'a>,
    lists: &'a [LoadList<'a>],
) -> Result<List<Change>, NoMemory>
    requires { All (λ list. length list.run.now.objs < 2 ^ 32) lists.now }
    ensures { IfOk result (λ changes. changes ≡ of_names changes_of_libs names.now
        (flat_map (of_names files_named_at names.now)
        (flat_map (λ list. objects_of list.faces.now list.run.now) lists.now))
        (each_first [] (flat_map (λ list. objects_of list.faces.now list.run.now) lists.now))) }
{
    let all = all_seen(alloc, lists)?;
    let table = all_files(alloc, names, all.as_slice())?;
    let firsts = Firsts::of(alloc, all.as_slice())?;
    lib_changes(alloc, names, &table, &firsts)
}

/// The changes of the bundled libraries, by their first places.
#[tactic(auto, unfolding(crate::specs::Changing::changes_of_libs))]
fn lib_changes<'a>(
    alloc: Global,
    names: &ObjectNames<'a>,
    table: &FileTable<'a>,
    firsts: &Firsts<'a>,
) -> Result<List<Change>, NoMemory>
    requires { AreFirsts firsts.now (map standing firsts.now.seen.items) }
    ensures { IfOk result (λ changes. changes ≡ of_names changes_of_libs names.now table.now
        (map standing firsts.now.seen.items)) }
{
    let mut changes = List::new(alloc);
    for lib in names.libs.split.libs.as_slice() {
        if let Some(seen) = firsts.find(lib.id.as_bytes()) {
            changes.push(change_of_lib(alloc, names, table, &seen)?)?;
        }
    }
    Ok(changes)
}

/// The change of a library.
#[tactic(auto, unfolding(crate::specs::Changing::change_of_lib))]
fn change_of_lib<'a>(
    alloc: Global,
    names: &ObjectNames<'a>,
    table: &FileTable<'a>,
    seen: &Seen<'a>,
) -> Result<Change, NoMemory>
    ensures { IfOk result (λ change. change ≡ of_names change_of_lib names.now table.now
        (standing seen.now)) }
{
    Ok(Change {
        needs: new_needs(alloc, names, seen)?,
        soname: new_soname(alloc, names, seen)?,
        runpath: run_path_of_lib(alloc, names, seen)?,
        files: told_files(alloc, table, seen)?,
    })
}

/// The soname of a library, where it has one.
fn new_soname<'a>(
    alloc: Global,
    names: &ObjectNames<'a>,
    seen: &Seen<'a>,
) -> Result<Option<Name>, NoMemory>
    ensures { IfOk result (λ soname. soname
        ≡ option_map (of_names new_soname names.now (standing seen.now)) seen.now.face.now.soname) }
{
    match &seen.face.soname {
        Some(soname) => {
            let name = name_or(names.name_of(seen.obj.id.as_bytes()), soname);
            Ok(Some(name.copy(alloc)?))
        }
        None => Ok(None),
    }
}
