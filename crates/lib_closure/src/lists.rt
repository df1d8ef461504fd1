//! The load lists of a build, and all of their objects.

ghost use Rattle.std.specs.Prelude.{◌≡◌, ◌<◌, ◌^◌, ◌++◌, All, IfOk, OnOk, flat_map, length, map, option_to_list};
ghost use Rattle.std.specs.List.{filter_map};
ghost use Rattle.load_model.specs.Runs.{IsRunOver};
ghost use Rattle.lib_closure.specs.Build.{list_of, lists_over};
ghost use Rattle.lib_closure.specs.Objects.{objects_of, occurrence_at};
ghost use Rattle.lib_closure.specs.Seen.{standing};

use crate::seen::{LoadList, Seen};
use load_model::{Face, NoMemory, Run};
use std::alloc::Global;
use version_files::files_of_run;

/// The load lists of these runs.
pub fn lists_of<'a>(
    alloc: Global,
    faces: &'a [Face],
    runs: &'a [Run],
) -> Result<Vec<LoadList<'a>>, NoMemory>
    requires { All (IsRunOver faces.now) runs.now }
    ensures { IfOk result (λ lists. map list_of lists.items ≡ lists_over faces.now runs.now) }
{
    let mut lists = Vec::new(alloc);
    for run in runs {
        let files = files_of_run(alloc, faces, run)?;
        match lists.push(LoadList { faces, run, files }) {
            Ok(()) => {}
            Err(_) => return Err(NoMemory),
        }
    }
    Ok(lists)
}

/// The objects of all lists, list by list.
pub fn all_seen<'a>(alloc: Global, lists: &'a [LoadList<'a>]) -> Result<Vec<Seen<'a>>, NoMemory>
    requires { All (λ list. length list.run.now.objs < 2 ^ 32) lists.now }
    ensures { IfOk result (λ all. map standing all.items
        ≡ flat_map (λ list. objects_of list.faces.now list.run.now) lists.now) }
{
    let mut all = Vec::new(alloc);
    for list in lists {
        add_objects(&mut all, list)?;
    }
    Ok(all)
}

/// Adds the objects of a list.
#[tactic(auto, unfolding(crate::specs::Objects::objects_of))]
fn add_objects<'a>(all: &mut Vec<Seen<'a>>, list: &'a LoadList<'a>) -> Result<(), NoMemory>
    requires { length list.now.run.now.objs < 2 ^ 32 }
    ensures { OnOk result (map standing all.new.items
        ≡ map standing all.old.items ++ objects_of list.now.faces.now list.now.run.now) }
{
    for number in 0..list.run.objs.as_slice().len() as u32 {
        add_object(all, list, number)?;
    }
    Ok(())
}

/// Adds the object of a number, where there is one.
fn add_object<'a>(
    all: &mut Vec<Seen<'a>>,
    list: &'a LoadList<'a>,
    number: u32,
) -> Result<(), NoMemory>
    ensures { OnOk result (map standing all.new.items ≡ map standing all.old.items
        ++ option_to_list (occurrence_at list.now.faces.now list.now.run.now number)) }
{
    let Some(seen) = list.seen(number) else {
        return Ok(());
    };
    match all.push(seen) {
        Ok(()) => Ok(()),
        Err(_) => Err(NoMemory),
    }
}

/// The first object of each list.
pub fn programs_seen<'a>(
    alloc: Global,
    lists: &'a [LoadList<'a>],
) -> Result<Vec<Seen<'a>>, NoMemory>
    ensures { IfOk result (λ programs. map standing programs.items
        ≡ filter_map (λ list. occurrence_at list.faces.now list.run.now 0) lists.now) }
{
    let mut programs = Vec::new(alloc);
    for list in lists {
        add_object(&mut programs, list, 0)?;
    }
    Ok(programs)
}
