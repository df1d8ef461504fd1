//! The run paths in which an object looks, cut into items (ld.so(8), DT_RPATH and DT_RUNPATH).
//!
//! Which run paths these are is said in `specs/Candidates.antt` of `load_model`.

ghost use Rattle.std.specs.Prelude.{◌≡◌, ◌==◌, [], ◌∷◌, ◌++◌, IfOk, OnOk, Some, filter, map, not, slice_get};
ghost use Rattle.std.specs.List.{slice_split};
ghost use Rattle.path_text.specs.Path.{folder_of, is_empty};
ghost use Rattle.load_model.specs.Candidates.{chain_items, items_held, own_items, rpath_items};
ghost use Rattle.load_model.specs.LoadList.{Object};
ghost use Rattle.load_model.specs.RunPaths.{texts_of};
ghost use Rattle.load_model.specs.Runs.{AreObjects, loader_by};
ghost use Rattle.load_model.specs.declared.setting.Setting.{Setting};
ghost use Rattle.search_paths.specs.HeldItems.{items_kept};
ghost use Rattle.search_paths.specs.Searching.{AreSearchable};

use load_model::{Face, List, Name, Obj};
use path_text::{Abs, NoMemory};
use std::alloc::{AllocError, Global};

/// An item of a run path as it is written, and the folder of the object that holds the run path.
#[derive(Drop)]
pub struct HeldItem {
    pub folder: Abs,
    pub text: Name,
}

/// The items of the run paths in which an object looks, in order.
pub fn held_items(
    alloc: Global,
    faces: &[Face],
    objs: &[Obj],
    from: u32,
) -> Result<List<HeldItem>, NoMemory>
    requires { AreSearchable faces.now objs.now from }
    ensures { IfOk result (λ held. (setting : Setting) (objects : _) → AreObjects faces.now objs.now
        objects → items_kept setting held ≡ own_items setting objects (loader_by objs.now) from
        (slice_get objects from)) }
{
    let asker = &objs[from as usize];
    match &faces[asker.face as usize].runpath {
        Some(runpath) => {
            let mut held = List::new(alloc);
            push_items(alloc, &asker.path, runpath, &mut held)?;
            Ok(held)
        }
        None => chain_items(alloc, faces, objs, from),
    }
}

/// The items of the RPATH of an object, its loader and so on, up to the program.
fn chain_items(
    alloc: Global,
    faces: &[Face],
    objs: &[Obj],
    from: u32,
) -> Result<List<HeldItem>, NoMemory>
    requires { AreSearchable faces.now objs.now from }
    ensures { IfOk result (λ held. (setting : Setting) (objects : _) → AreObjects faces.now objs.now
        objects → items_kept setting held ≡ chain_items setting objects (loader_by objs.now) from) }
{
    let mut held = List::new(alloc);
    let mut number = from as usize;
    'chain: loop {
        let object = &objs[number];
        push_rpath(alloc, object, &faces[object.face as usize], &mut held)?;
        if number == 0 {
            return Ok(held);
        }
        number = object.loader as usize;
    }
}

/// Adds the items of the RPATH of an object, which counts only where there is no RUNPATH.
fn push_rpath(
    alloc: Global,
    object: &Obj,
    face: &Face,
    held: &mut List<HeldItem>,
) -> Result<(), NoMemory>
    ensures { OnOk result ((setting : Setting) (o : Object) → o.path ≡ object.now.path → o.face ≡
        face.now → items_kept setting held.new ≡ items_kept setting held.old ++ rpath_items setting
        (Some o)) }
{
    match (&face.runpath, &face.rpath) {
        (None, Some(rpath)) => push_items(alloc, &object.path, rpath, held),
        _ => Ok(()),
    }
}

/// Adds the items of a run path that the object at this path holds.
fn push_items(
    alloc: Global,
    path: &Abs,
    run_path: &Name,
    held: &mut List<HeldItem>,
) -> Result<(), NoMemory>
    ensures { OnOk result (held.new ≡ held.old ++ map (λ text. record {
      folder = folder_of path.now;
      text = text;
    }) (texts_of run_path.now)) }
{
    let texts = texts_between(alloc, run_path.as_bytes())?;
    for text in texts.as_slice() {
        push_item(alloc, path, *text, held)?;
    }
    Ok(())
}

/// Adds an item, unless it is empty.
fn push_item(
    alloc: Global,
    path: &Abs,
    text: &[u8],
    held: &mut List<HeldItem>,
) -> Result<(), NoMemory>
    ensures { OnOk result (held.new ≡ held.old ++ map (λ text. record {
      folder = folder_of path.now;
      text = text;
    }) (filter (λ item. not (is_empty item)) (text.now ∷ []))) }
{
    if is_empty(text) {
        return Ok(());
    }
    let folder = path.folder(alloc)?;
    let text = Name::from_bytes(alloc, text)?;
    held.push(HeldItem { folder, text })
}

/// The texts between colons.
fn texts_between(alloc: Global, run_path: &[u8]) -> Result<Vec<&[u8]>, AllocError>
    ensures { IfOk result (λ v. map (λ item. item.now) v.items ≡ slice_split (λ c. c == 58)
        run_path.now) }
{
    run_path.split(|c| *c == b':').collect(alloc)
}

/// Whether there is no byte.
fn is_empty(text: &[u8]) -> bool
    ensures { result ≡ is_empty text.now }
{
    text.first().is_none()
}
