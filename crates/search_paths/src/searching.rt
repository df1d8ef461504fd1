//! The search of a name: the candidates in order, up to the first that decides (ld.so(8)).
//!
//! The search is said in `specs/Candidates.antt` of `load_model`, its answers in
//! `specs/Searching.antt`.

ghost use Rattle.std.specs.Prelude.{◌≡◌, IfErr, List};
ghost use Rattle.std.specs.List.{flat_map};
ghost use Rattle.load_model.specs.Candidates.{candidate_in, candidates, first_decision, listed_candidates};
ghost use Rattle.load_model.specs.Faces.{face_or_flaw};
ghost use Rattle.load_model.specs.LoadList.{Object};
ghost use Rattle.load_model.specs.Opening.{OnlyGrew};
ghost use Rattle.load_model.specs.RunPaths.{Folder};
ghost use Rattle.load_model.specs.Runs.{AreObjects, loader_by};
ghost use Rattle.load_model.specs.declared.setting.Setting.{Setting};
ghost use Rattle.search_paths.specs.HeldItems.{item_held};
ghost use Rattle.search_paths.specs.Searching.{AreSearchable, Decides, IsAnswer, IsByOpening};

use crate::hits::{Hit, SearchStop};
use crate::looking::{begins_at_root, look_at, look_in_dir, look_in_item};
use crate::run_paths::{HeldItem, held_items};
use load_model::{Name, Obj, Opener, Setting};
use path_text::Abs;
use std::alloc::Global;

/// Searches a name that an object asks for: in its run paths, and then in the listed directories.
pub fn search<P: Opener>(
    alloc: Global,
    opener: &mut P,
    setting: &Setting,
    objs: &[Obj],
    from: u32,
    name: &Name,
) -> Result<Hit, SearchStop>
    requires machine { (P.seen opener.old).machine ≡ setting.now.machine }
    requires objs { AreSearchable (P.seen opener.old).faces objs.now from }
    ensures answer { IsAnswer (λ world decided. (objects : List Object) → AreObjects (P.seen
        opener.old).faces objs.now objects → first_decision face_or_flaw setting.now world
        (candidates setting.now objects (loader_by objs.now) (record {
          by = from;
          name = name.now;
        })) ≡ decided) (P.seen opener.old) (P.seen opener.new) result }
    ensures grew { OnlyGrew (P.seen opener.old) (P.seen opener.new) }
{
    if begins_at_root(name.as_bytes()) {
        return look_at(alloc, opener, name.as_bytes());
    }
    let held = held_items(alloc, opener.faces(), objs, from)?;
    match look_in_items(alloc, opener, setting, held.as_slice(), name) {
        Ok(Hit::Missing) => look_in_folders(alloc, opener, setting.dirs.as_slice(), name),
        Ok(Hit::Found { path, id, face }) => Ok(Hit::Found { path, id, face }),
        Err(stop) => Err(stop),
    }
}

/// Searches a name in these directories alone.
pub fn search_dirs<P: Opener>(
    alloc: Global,
    opener: &mut P,
    dirs: &[Abs],
    name: &Name,
) -> Result<Hit, SearchStop>
    ensures answer { IsAnswer (λ world decided. (setting : Setting) → setting.machine ≡ (P.seen
        opener.old).machine → setting.dirs ≡ dirs.now → first_decision face_or_flaw setting world
        (listed_candidates setting name.now) ≡ decided) (P.seen opener.old) (P.seen opener.new)
        result }
    ensures grew { OnlyGrew (P.seen opener.old) (P.seen opener.new) }
    ensures alone { IfErr result (λ stop. IsByOpening stop) }
{
    look_in_folders(alloc, opener, dirs, name)
}

/// Looks in items of run paths, one after the other.
fn look_in_items<P: Opener>(
    alloc: Global,
    opener: &mut P,
    setting: &Setting,
    items: &[HeldItem],
    name: &Name,
) -> Result<Hit, SearchStop>
    ensures answer { IsAnswer (Decides (P.seen opener.old) (flat_map (λ item. candidate_in name.now
        (item_held setting.now item)) items.now)) (P.seen opener.old) (P.seen opener.new) result }
    ensures grew { OnlyGrew (P.seen opener.old) (P.seen opener.new) }
{
    for item in items {
        match look_in_item(alloc, opener, setting, item, name) {
            Ok(Hit::Missing) => {}
            Ok(Hit::Found { path, id, face }) => return Ok(Hit::Found { path, id, face }),
            Err(stop) => return Err(stop),
        }
    }
    Ok(Hit::Missing)
}

/// Looks in folders, one after the other.
fn look_in_folders<P: Opener>(
    alloc: Global,
    opener: &mut P,
    dirs: &[Abs],
    name: &Name,
) -> Result<Hit, SearchStop>
    ensures answer { IsAnswer (Decides (P.seen opener.old) (flat_map (λ dir. candidate_in name.now
        (Folder dir)) dirs.now)) (P.seen opener.old) (P.seen opener.new) result }
    ensures grew { OnlyGrew (P.seen opener.old) (P.seen opener.new) }
    ensures alone { IfErr result (λ stop. IsByOpening stop) }
{
    for dir in dirs {
        match look_in_dir(alloc, opener, dir, name) {
            Ok(Hit::Missing) => {}
            Ok(Hit::Found { path, id, face }) => return Ok(Hit::Found { path, id, face }),
            Err(stop) => return Err(stop),
        }
    }
    Ok(Hit::Missing)
}
