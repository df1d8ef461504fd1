//! Where a request goes: to an object that is known by the name, to the object that is the file
//! found, or to this file.
//!
//! ld.so(8). Where requests go is said in `specs/Loads.antt` of `load_model`, the answers of the
//! steps in `specs/Asking.antt`.

ghost use Rattle.std.specs.Prelude.{◌≡◌, ◌<◌, IfOk, List, OnOk, Some, length, slice_get};
ghost use Rattle.load_model.specs.Candidates.{asker_path, has_dollar, is_relative};
ghost use Rattle.load_model.specs.LoadList.{Loaded, Object};
ghost use Rattle.load_model.specs.Opening.{OnlyGrew};
ghost use Rattle.load_model.specs.Runs.{AreObjects};
ghost use Rattle.load_model.specs.declared.faces.Face.{Face};
ghost use Rattle.load_requests.specs.Asking.{IsAdded, IsTaken, IsTextAnswer};
ghost use Rattle.load_requests.specs.Standing.{IsAskedFor, IsAsking, IsSafe, Stands};
ghost use Rattle.load_requests.specs.declared.stops.LoadStop.TheVariants.{MissingLibrary as Misses};

use crate::loading::Loading;
use crate::stops::LoadStop;
use load_model::limits::MOST_OBJECTS;
use load_model::{Face, Name, Obj, Opener, Setting};
use path_text::NoMemory;
use search_paths::{Hit, search};
use std::alloc::Global;

/// An object asks for a name.
#[derive(Clone, Copy)]
pub struct Request<'a> {
    pub by: u32,
    pub name: &'a Name,
}

/// Asks for a name, and answers the number of the object that the request goes to.
pub fn ask<P: Opener>(
    alloc: Global,
    opener: &mut P,
    setting: &Setting,
    loading: &mut Loading,
    request: Request<'_>,
) -> Result<u32, LoadStop>
    requires machine { (P.seen opener.old).machine ≡ setting.now.machine }
    requires safe { IsSafe (P.seen opener.old).faces loading.old }
    requires by { request.by < length loading.old.objs }
    ensures safe { OnOk result (IsSafe (P.seen opener.new).faces loading.new) }
    ensures asking { OnOk result (IsAsking loading.old loading.new) }
    ensures target { IfOk result (λ t. t < length loading.new.objs) }
    ensures answer { (loaded : Loaded) → Stands (P.seen opener.old).faces loading.old loaded
        → IsAskedFor setting.now (P.seen opener.old) (P.seen opener.new) loading.new loaded
        (record { by = request.entry.by; name = request.entry.name.now }) result }
    ensures grew { OnlyGrew (P.seen opener.old) (P.seen opener.new) }
{
    if let Err(stop) = check_text(alloc, loading, request) {
        return Err(stop);
    }
    if let Some(number) = loading.known.first(request.name) {
        return Ok(number as u32);
    }
    let objs = loading.objs.as_slice();
    match search(alloc, opener, setting, objs, request.by, request.name) {
        Ok(Hit::Found { path, id, face }) => {
            let object = Obj {
                path,
                id,
                face,
                loader: request.by,
                phase: loading.phase,
            };
            take(alloc, opener.faces(), loading, request.name, object)
        }
        Ok(Hit::Missing) => Err(missing(alloc, loading, request)?),
        Err(stop) => Err(LoadStop::Search(stop)),
    }
}

/// The object that is this file, or this file as the next object.
fn take(
    alloc: Global,
    faces: &[Face],
    loading: &mut Loading,
    name: &Name,
    object: Obj,
) -> Result<u32, LoadStop>
    requires safe { IsSafe faces.now loading.old }
    requires place { object.face < length faces.now }
    requires loader { object.loader < length loading.old.objs }
    requires phase { object.phase ≡ loading.old.phase }
    ensures safe { OnOk result (IsSafe faces.now loading.new) }
    ensures asking { OnOk result (IsAsking loading.old loading.new) }
    ensures target { IfOk result (λ t. t < length loading.new.objs) }
    ensures taken { (loaded : Loaded) (face : Face) → Stands faces.now loading.old loaded
        → slice_get faces.now object.face ≡ Some face
        → IsTaken faces.now loading.new loaded (record { by = object.loader; name = name.now })
        (record { path = object.path; id = object.id; face = face }) result }
{
    if let Some(number) = loading.with_id(&object.id) {
        loading.known.learn(alloc, name, number)?;
        return Ok(number as u32);
    }
    let number = loading.count();
    if number >= MOST_OBJECTS {
        return Err(LoadStop::TooManyObjects(loading.path_of(alloc, 0)?));
    }
    add(alloc, faces, loading, name, object)?;
    Ok(number as u32)
}

/// Adds an object, which is known by the name and its soname.
fn add(
    alloc: Global,
    faces: &[Face],
    loading: &mut Loading,
    name: &Name,
    object: Obj,
) -> Result<(), NoMemory>
    requires place { object.face < length faces.now }
    ensures { OnOk result (IsAdded faces.now name.now object loading.old loading.new) }
{
    let number = loading.count();
    loading.push(alloc, &faces[object.face as usize], object)?;
    loading.known.learn(alloc, name, number)
}

/// Refuses a name that holds `$`, or a slash where it does not begin with one.
fn check_text(alloc: Global, loading: &Loading, request: Request<'_>) -> Result<(), LoadStop>
    requires { request.by < length loading.now.objs }
    ensures { (faces : List Face) (objects : List Object)
        → AreObjects faces loading.now.objs objects → IsTextAnswer objects (record {
          by = request.entry.by;
          name = request.entry.name.now;
        }) result }
{
    let text = request.name.as_bytes();
    if has_dollar(text) {
        let name = request.name.copy(alloc)?;
        let by = loading.path_of(alloc, request.by)?;
        return Err(LoadStop::TokenInNeed { name, by });
    }
    if is_relative(text) {
        let name = request.name.copy(alloc)?;
        let by = loading.path_of(alloc, request.by)?;
        return Err(LoadStop::RelativeNeed { name, by });
    }
    Ok(())
}

/// Whether a text holds a `$`.
fn has_dollar(text: &[u8]) -> bool
    ensures { result ≡ has_dollar text.now }
{
    text.contains(&b'$')
}

/// Whether a text has a slash and does not begin with one.
fn is_relative(text: &[u8]) -> bool
    ensures { result ≡ is_relative text.now }
{
    text.first() != Some(&b'/') && text.contains(&b'/')
}

/// Why a name that no candidate decides has no target.
fn missing(alloc: Global, loading: &Loading, request: Request<'_>) -> Result<LoadStop, NoMemory>
    requires { request.by < length loading.now.objs }
    ensures { IfOk result (λ stop. (faces : List Face) (objects : List Object)
        → AreObjects faces loading.now.objs objects
        → stop ≡ Misses request.entry.name.now (asker_path objects (record {
          by = request.entry.by;
          name = request.entry.name.now;
        }))) }
{
    let name = request.name.copy(alloc)?;
    let by = loading.path_of(alloc, request.by)?;
    Ok(LoadStop::MissingLibrary { name, by })
}
