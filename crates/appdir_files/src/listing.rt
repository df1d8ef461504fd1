//! Which items are a list of files, as `specs/Listing.antt` says.

ghost use Rattle.std.specs.Prelude.{◌≡◌, ◌≤◌, ◌==◌, ◌||◌, [], IfOk, bytes_eq, length};
ghost use Rattle.std.specs.List.{list_any};
ghost use Rattle.answers.specs.Answers.{Answers};
ghost use Rattle.appdir_files.specs.Listing.{first_clash_stop, first_lib_stop, is_folder_of, is_in_lib, list_stop, item_list, said_of_list};

use crate::items::Item;
use crate::path_sets::PathSet;
use crate::stops::ListStop;
use load_model::{List, NoMemory};
use std::alloc::Global;

/// The folder of bundled libraries, with the slash behind it.
const LIB_FRONT: &[u8] = b"usr/lib/";

/// The items as they are, of which those from a place up to another are data files; or the first
/// target that is refused: a data file in the folder of libraries itself, and then an item that
/// clashes with an earlier one.
///
/// The time grows with the items and the folders that they lie in, and not with their product.
pub fn list(
    alloc: Global,
    parts: List<Item>,
    data_from: u32,
    data_to: u32,
) -> Result<List<Item>, ListStop>
    requires order { data_from ≤ data_to }
    requires within { data_to ≤ length parts }
    ensures { Answers said_of_list result (item_list parts data_from data_to) }
{
    match first_stop(
        alloc,
        parts.as_slice(),
        data_from as usize,
        data_to as usize,
    ) {
        Ok(None) => Ok(parts),
        Ok(Some(stop)) => Err(stop),
        Err(_) => Err(ListStop::NoMemory),
    }
}

/// The first target that is refused.
#[tactic(auto, unfolding(crate::specs::Listing::list_stop))]
fn first_stop(
    alloc: Global,
    items: &[Item],
    data_from: usize,
    data_to: usize,
) -> Result<Option<ListStop>, NoMemory>
    requires order { data_from ≤ data_to }
    requires within { data_to ≤ length items.now }
    ensures { IfOk result (λ stop. stop ≡ list_stop items.now data_from data_to) }
{
    if let Some(stop) = first_lib_stop(alloc, &items[data_from..data_to])? {
        return Ok(Some(stop));
    }
    first_clash_stop(alloc, items)
}

/// The first data file in the folder of libraries itself.
#[tactic(auto, unfolding(crate::specs::Listing::first_lib_stop))]
fn first_lib_stop(alloc: Global, items: &[Item]) -> Result<Option<ListStop>, NoMemory>
    ensures { IfOk result (λ stop. stop ≡ first_lib_stop items.now) }
{
    for item in items {
        if is_in_lib(item.path.as_str().as_bytes()) {
            return Ok(Some(ListStop::TargetInLib(item.path.copy(alloc)?)));
        }
    }
    Ok(None)
}

/// Whether a target is a name in the folder of libraries itself.
fn is_in_lib(path: &[u8]) -> bool
    ensures { result ≡ is_in_lib path.now }
{
    path.starts_with(LIB_FRONT) && !has_slash(&path[LIB_FRONT.len()..])
}

fn has_slash(text: &[u8]) -> bool
    ensures { result ≡ list_any (λ c. c == 47) text.now }
{
    text.iter().any(|c| *c == b'/')
}

/// The first item that clashes with an earlier one.
#[tactic(auto, unfolding(crate::specs::Listing::first_clash_stop))]
fn first_clash_stop(alloc: Global, items: &[Item]) -> Result<Option<ListStop>, NoMemory>
    ensures { IfOk result (λ stop. stop ≡ first_clash_stop [] items.now) }
{
    let mut paths = PathSet::new(alloc);
    let mut folders = PathSet::new(alloc);
    for item in items {
        let path = item.path.as_str().as_bytes();
        if is_taken(&paths, &folders, path) {
            return Ok(Some(ListStop::TargetClash(item.path.copy(alloc)?)));
        }
        paths.add(alloc, path)?;
        folders.add_folders(alloc, path)?;
    }
    Ok(None)
}

/// Whether a path or a folder of it is among the paths, or the path is among their folders.
fn is_taken(paths: &PathSet, folders: &PathSet, path: &[u8]) -> bool
    ensures { result ≡ (list_any (bytes_eq path.now) paths.now
        || (list_any (bytes_eq path.now) folders.now
        || list_any (λ folder. is_folder_of folder path.now) paths.now)) }
{
    paths.contains(path) || folders.contains(path) || paths.contains_folder(path)
}
