//! The versions that are asked of host libraries, as `specs/Recording.antt` says.

ghost use Rattle.std.specs.Prelude.{◌≡◌, ◌<◌, ◌++◌, IfOk, OnOk, flat_map, fold, length, map, option_to_list, vec_items};
ghost use Rattle.std.specs.BTreeSet.{insert_key};
ghost use Rattle.std.specs.Option.{option_and_then};
ghost use Rattle.load_model.specs.LoadList.{up_to};
ghost use Rattle.load_model.specs.Runs.{IsRunOver};
ghost use Rattle.host_record.specs.Orders.{version_cmp};
ghost use Rattle.host_list.specs.Places.{IsPlaceInRun};
ghost use Rattle.host_list.specs.Recording.{host_at, host_numbers, version_asked, versions_by};
ghost use Rattle.version_files.specs.Files.{files_at as files_named_by, files_of_run};
ghost use Rattle.host_list.specs.Versions.{versions_beside};

use crate::places::{Place, host_at};
use host_record::RecVersion;
use load_model::{Ask, NoMemory};
use std::alloc::Global;
use std::collections::BTreeSet;

/// Adds the versions that the objects of a run ask, but for those that are there; `files` has the
/// objects that the files of asks name.
#[tactic(auto, unfolding(load_model::specs::LoadList::up_to))]
pub(crate) fn add_versions(
    alloc: Global,
    versions: &mut BTreeSet<RecVersion>,
    place: &Place<'_>,
    files: &[Vec<Option<u32>>],
) -> Result<(), NoMemory>
    requires run { IsRunOver place.now.faces.now place.now.run.now }
    requires place { IsPlaceInRun place.now }
    requires files { map vec_items files.now
        ≡ files_of_run place.now.faces.now place.now.run.now }
    ensures { OnOk result (versions.new.keys ≡ fold (insert_key version_cmp) versions.old.keys
        (flat_map (versions_by place.now.faces.now
        (host_numbers place.now.hosts.now place.now.run.now) place.now.run.now)
        (up_to (length place.now.run.now.objs)))) }
{
    for obj in 0..place.run.objs.as_slice().len() as u32 {
        let found = versions_by(alloc, place, files, obj)?;
        add_all(versions, found)?;
    }
    Ok(())
}

/// Adds versions, but for those that are there.
fn add_all(versions: &mut BTreeSet<RecVersion>, found: Vec<RecVersion>) -> Result<(), NoMemory>
    ensures { OnOk result
        (versions.new.keys ≡ fold (insert_key version_cmp) versions.old.keys found.items) }
{
    'found: for version in found {
        if versions.insert(version).is_err() {
            return Err(NoMemory);
        }
    }
    Ok(())
}

/// The versions that an object asks of host libraries, if it is none.
#[tactic(auto, unfolding(crate::specs::Recording::versions_by))]
fn versions_by(
    alloc: Global,
    place: &Place<'_>,
    files: &[Vec<Option<u32>>],
    obj: u32,
) -> Result<Vec<RecVersion>, NoMemory>
    requires run { IsRunOver place.now.faces.now place.now.run.now }
    requires place { IsPlaceInRun place.now }
    requires files { map vec_items files.now
        ≡ files_of_run place.now.faces.now place.now.run.now }
    requires obj { obj < length place.now.run.now.objs }
    ensures { IfOk result (λ versions. versions.items ≡ versions_by place.now.faces.now
        (host_numbers place.now.hosts.now place.now.run.now) place.now.run.now obj) }
{
    let numbers = place.numbers.as_slice();
    if host_at(numbers, obj).is_some() {
        return Ok(Vec::new(alloc));
    }
    let face = place.run.face_of(place.faces, obj);
    let named = files_at(place, files, obj);
    versions_asked(alloc, numbers, face.asks.as_slice(), named)
}

/// The objects that the files of an object's asks name.
fn files_at<'a>(place: &Place<'_>, files: &'a [Vec<Option<u32>>], obj: u32) -> &'a [Option<u32>]
    requires files { map vec_items files.now
        ≡ files_of_run place.now.faces.now place.now.run.now }
    requires obj { obj < length place.now.run.now.objs }
    ensures { result.now ≡ files_named_by place.now.faces.now place.now.run.now obj }
{
    files[obj as usize].as_slice()
}

/// The versions of these asks, which stand beside the objects that their files name.
#[tactic(auto, unfolding(crate::specs::Versions::versions_beside))]
fn versions_asked(
    alloc: Global,
    numbers: &[Option<u32>],
    asks: &[Ask],
    files: &[Option<u32>],
) -> Result<Vec<RecVersion>, NoMemory>
    requires { length files.now ≡ length asks.now }
    ensures { IfOk result (λ versions. versions.items
        ≡ versions_beside numbers.now asks.now files.now) }
{
    let mut versions = Vec::new(alloc);
    'asks: for (place, ask) in asks.iter().enumerate() {
        push_version(alloc, &mut versions, numbers, ask, files[place])?;
    }
    Ok(versions)
}

/// Adds the version of an ask, unless it is weak or its file is no host library.
fn push_version(
    alloc: Global,
    versions: &mut Vec<RecVersion>,
    numbers: &[Option<u32>],
    ask: &Ask,
    file: Option<u32>,
) -> Result<(), NoMemory>
    ensures { OnOk result (versions.new.items
        ≡ versions.old.items ++ option_to_list (version_asked numbers.now ask.now file)) }
{
    if ask.weak {
        return Ok(());
    }
    let Some(lib) = lib_of(numbers, file) else {
        return Ok(());
    };
    let version = ask.name.copy(alloc)?;
    match versions.push(RecVersion { lib, version }) {
        Ok(()) => Ok(()),
        Err(_) => Err(NoMemory),
    }
}

/// The number of the host library that the file of an ask is, if any.
fn lib_of(numbers: &[Option<u32>], file: Option<u32>) -> Option<u32>
    ensures { result ≡ option_and_then (host_at numbers.now) file }
{
    match file {
        Some(obj) => host_at(numbers, obj),
        None => None,
    }
}
