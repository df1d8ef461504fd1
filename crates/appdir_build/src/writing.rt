//! The files of programs and bundled libraries: programs first, then the libraries in order.
//! Definitions: `specs/Files.antt` and `specs/Writing.antt`.

ghost use Rattle.std.specs.Prelude.{◌≡◌, ◌<◌, ◌++◌, ℕ, List, All, IfOk, OnOk, Some, length, map, slice_get};
ghost use Rattle.appdir_files.specs.Writing.{IsProbed};
ghost use Rattle.build_plan.specs.Deciding.{IsSafePlan, building_of};
ghost use Rattle.build_plan.specs.Steps.{IsStepAnswer};
ghost use Rattle.build_texts.specs.Places.{lib_place as placed_lib};
ghost use Rattle.elf_rewrite.specs.declared.change.Change.{Change};
ghost use Rattle.lib_closure.specs.declared.splits.Member.{Member};
ghost use Rattle.ports.specs.View.{OnlyReads};
ghost use Rattle.appdir_build.specs.Files.{files_of_programs, lib_files};
ghost use Rattle.appdir_build.specs.Objects.{lib_objects, program_objects};
ghost use Rattle.appdir_build.specs.Writing.{AreFacedIn, AreItemsFor, AreObjectsIn, AreWritable, IsItemFor, IsPrepared, IsWritingOf, file_for, files_in, pairs_in};

use crate::bodies::body_of;
use crate::items::item;
use crate::preparing::changes_of;
use app_config::Config;
use appdir_files::Item;
use build_plan::{BuildStop, Plan};
use build_texts::{lib_place, program_places};
use elf_rewrite::Change;
use lib_closure::Member;
use load_model::{Face, List, Name, NoMemory};
use object_changes::Changes;
use ports::Tree;
use std::alloc::Global;

/// The files of the programs and of the bundled libraries.
#[derive(Drop)]
pub struct Written {
    pub programs: List<Item>,
    pub libs: List<Item>,
}

/// Programs or libraries, each with its change and the place where it is written.
#[derive(Clone, Copy)]
pub struct Objects<'a> {
    pub faces: &'a [Face],
    pub members: &'a [Member],
    pub changes: &'a [Change],
    pub places: &'a [Name],
    pub executable: bool,
}

/// The files of all programs and libraries, or the first that is not rewritten.
pub fn written_objects<T: Tree>(
    alloc: Global,
    config: &Config,
    tree: &mut T,
    plan: &Plan,
) -> Result<Written, BuildStop>
    requires { IsSafePlan config.now plan.now }
    ensures answer { IsStepAnswer (T.seen tree.old) (T.seen tree.new) (λ world outcome.
        AreObjectsIn world plan.now → IsWritingOf world config.now plan.now outcome) result }
    ensures programs { IfOk result
        (λ written. All (IsProbed (T.seen tree.old).told) written.programs) }
    ensures libs { IfOk result
        (λ written. All (IsProbed (T.seen tree.old).told) written.libs) }
    ensures only_reads { OnlyReads (T.seen tree.old) (T.seen tree.new) }
{
    let changes = match changes_of(alloc, config, plan) {
        Ok(changes) => changes,
        Err(_) => return Err(BuildStop::NoMemory),
    };
    let programs = match written_programs(alloc, config, tree, plan, &changes) {
        Ok(programs) => programs,
        Err(stop) => return Err(stop),
    };
    match written_libs(alloc, tree, plan, &changes) {
        Ok(libs) => Ok(Written { programs, libs }),
        Err(stop) => Err(stop),
    }
}

/// The programs, as they are written.
fn written_programs<T: Tree>(
    alloc: Global,
    config: &Config,
    tree: &mut T,
    plan: &Plan,
    changes: &Changes,
) -> Result<List<Item>, BuildStop>
    requires safe { IsSafePlan config.now plan.now }
    requires prepared { IsPrepared plan.now changes.now }
    ensures answer { IsStepAnswer (T.seen tree.old) (T.seen tree.new) (λ world outcome.
        AreObjectsIn world plan.now
        → AreItemsFor world (program_objects (building_of plan.now))
        (files_of_programs world config.now (building_of plan.now)) outcome) result }
    ensures probed { IfOk result (All (IsProbed (T.seen tree.old).told)) }
    ensures only_reads { OnlyReads (T.seen tree.old) (T.seen tree.new) }
{
    let Ok(places) = program_places(alloc, config) else {
        return Err(BuildStop::NoMemory);
    };
    let objects = Objects {
        faces: plan.loads.table.faces(),
        members: plan.split.programs.as_slice(),
        changes: changes.programs.as_slice(),
        places: places.as_slice(),
        executable: true,
    };
    written_at(alloc, tree, &objects)
}

/// The bundled libraries, as they are written.
fn written_libs<T: Tree>(
    alloc: Global,
    tree: &mut T,
    plan: &Plan,
    changes: &Changes,
) -> Result<List<Item>, BuildStop>
    requires { IsPrepared plan.now changes.now }
    ensures answer { IsStepAnswer (T.seen tree.old) (T.seen tree.new) (λ world outcome.
        AreObjectsIn world plan.now → AreItemsFor world (lib_objects (building_of plan.now))
        (lib_files world (building_of plan.now)) outcome) result }
    ensures probed { IfOk result (All (IsProbed (T.seen tree.old).told)) }
    ensures only_reads { OnlyReads (T.seen tree.old) (T.seen tree.new) }
{
    let Ok(places) = lib_places(alloc, plan.layout.libs.as_slice()) else {
        return Err(BuildStop::NoMemory);
    };
    let objects = Objects {
        faces: plan.loads.table.faces(),
        members: plan.split.libs.as_slice(),
        changes: changes.libs.as_slice(),
        places: places.as_slice(),
        executable: false,
    };
    written_at(alloc, tree, &objects)
}

/// The places of bundled libraries with these names.
fn lib_places(alloc: Global, names: &[Name]) -> Result<List<Name>, NoMemory>
    ensures { IfOk result (λ places. places ≡ map placed_lib names.now) }
{
    let mut places = List::new(alloc);
    push_places(alloc, &mut places, names)?;
    Ok(places)
}

fn push_places(alloc: Global, places: &mut List<Name>, names: &[Name]) -> Result<(), NoMemory>
    ensures { OnOk result (places.new ≡ places.old ++ map placed_lib names.now) }
{
    'names: for name in names {
        places.push(lib_place(alloc, name)?)?;
    }
    Ok(())
}

/// Objects as they are written, or the first that is not rewritten.
fn written_at<T: Tree>(
    alloc: Global,
    tree: &mut T,
    objects: &Objects<'_>,
) -> Result<List<Item>, BuildStop>
    requires { AreWritable objects.now }
    ensures answer { IsStepAnswer (T.seen tree.old) (T.seen tree.new) (λ world outcome.
        AreFacedIn world objects.now
        → AreItemsFor world (pairs_in objects.now) (files_in world objects.now) outcome) result }
    ensures probed { IfOk result (All (IsProbed (T.seen tree.old).told)) }
    ensures only_reads { OnlyReads (T.seen tree.old) (T.seen tree.new) }
{
    let mut items = List::new(alloc);
    for number in 0..objects.members.len() {
        match written_one(alloc, tree, objects, number) {
            Ok(item) => items.push(item)?,
            Err(stop) => return Err(stop),
        }
    }
    Ok(items)
}

/// The object of this number, as it is written.
fn written_one<T: Tree>(
    alloc: Global,
    tree: &mut T,
    objects: &Objects<'_>,
    number: usize,
) -> Result<Item, BuildStop>
    requires writable { AreWritable objects.now }
    requires number { number < length objects.now.members.now }
    ensures answer { IsStepAnswer (T.seen tree.old) (T.seen tree.new) (λ world outcome.
        AreFacedIn world objects.now → (object : Member × Change) (place : List ℕ)
        → slice_get (pairs_in objects.now) number ≡ Some object
        → slice_get objects.now.places.now number ≡ Some place
        → IsItemFor world object (file_for world objects.now (place, object)) outcome) result }
    ensures probed { IfOk result (IsProbed (T.seen tree.old).told) }
    ensures only_reads { OnlyReads (T.seen tree.old) (T.seen tree.new) }
{
    let member = &objects.members[number];
    let change = &objects.changes[number];
    let place = &objects.places[number];
    let face = &objects.faces[member.face as usize];
    match body_of(alloc, tree, member, face, change) {
        Ok(body) => match item(alloc, place.as_bytes(), objects.executable, body) {
            Ok(item) => Ok(item),
            Err(_) => Err(BuildStop::NoMemory),
        },
        Err(stop) => Err(stop),
    }
}
