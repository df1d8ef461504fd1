//! Which programs can be packed without bundling a library. Definitions: `specs/Fitting.antt`.

ghost use Rattle.std.specs.Prelude.{◌≡◌, IfOk, MatchOption, None, Some, length};
ghost use Rattle.std.specs.List.{list_all, range_with_len};
ghost use Rattle.std.specs.Option.{option_copied};
ghost use Rattle.load_model.specs.Runs.{face_at};
ghost use Rattle.listed_runs.specs.Fitting.{fits_as_program, fits_in_run, has_listed_interpreter, is_key, is_on_list, key_at, run_fits_need, run_fits_needs, run_fits_object, run_is_all_listed};

use load_model::{Face, Name, Run};
use path_text::{Abs, NoMemory, PathFault};
use std::alloc::Global;

/// Whether the whole load list is on the list of names: the program has no soname and a listed
/// interpreter; no object has a run path; each need is on the list, and went to an object, not the
/// program, of which it is the key.
#[tactic(auto, unfolding(crate::specs::Fitting::run_is_all_listed))]
pub fn is_all_listed(
    alloc: Global,
    names: &[Name],
    faces: &[Face],
    run: &Run,
) -> Result<bool, NoMemory>
    ensures { IfOk result (λ listed. listed ≡ run_is_all_listed names.now faces.now run.now) }
{
    let fits = match face_at(faces, run, 0) {
        Some(face) => fits_as_program(alloc, names, face)?,
        None => false,
    };
    Ok(fits && all_fit(names, faces, run))
}

fn all_fit(names: &[Name], faces: &[Face], run: &Run) -> bool
    ensures { result ≡ list_all (run_fits_object names.now faces.now run.now)
        (range_with_len 0 (length run.now.objs)) }
{
    (0..run.objs.as_slice().len()).all(|j| fits_object(names, faces, run, j))
}

/// Whether an object has no run path, and all its needs fit.
fn fits_object(names: &[Name], faces: &[Face], run: &Run, j: usize) -> bool
    ensures { result ≡ run_fits_object names.now faces.now run.now j }
{
    let Some(face) = face_at(faces, run, j) else {
        return false;
    };
    let Some(targets) = run.targets.as_slice().get(j) else {
        return false;
    };
    face.rpath.is_none()
        && face.runpath.is_none()
        && fit_needs(names, faces, run, face.needs.as_slice(), targets.as_slice())
}

fn fit_needs(names: &[Name], faces: &[Face], run: &Run, needs: &[Name], targets: &[u32]) -> bool
    ensures { result ≡ run_fits_needs names.now faces.now run.now needs.now targets.now }
{
    needs.iter().zip(targets).all(|(need, target)| fits_need(names, faces, run, need, *target))
}

/// Whether a need is on the list, and went to an object, not the program, of which it is the key.
fn fits_need(names: &[Name], faces: &[Face], run: &Run, need: &Name, target: u32) -> bool
    ensures { result ≡ run_fits_need names.now faces.now run.now need.now target }
{
    is_on_list(names, need.as_bytes())
        && target != 0
        && is_key_at(faces, run, need.as_bytes(), target as usize)
}

/// Whether the object of this number has the name as its key.
fn is_key_at(faces: &[Face], run: &Run, name: &[u8], j: usize) -> bool
    ensures { result ≡ is_key name.now (key_at faces.now run.now j) }
{
    is_key(name, key_at(faces, run, j))
}

fn is_key(name: &[u8], key: Option<&[u8]>) -> bool
    ensures { result ≡ is_key name.now (option_copied key.entry) }
{
    match key {
        Some(key) => key == name,
        None => false,
    }
}

/// The key of an object: its soname, or else the last part of the path under which it was found.
fn key_at<'a>(faces: &'a [Face], run: &'a Run, j: usize) -> Option<&'a [u8]>
    ensures { option_copied result ≡ key_at faces.now run.now j }
{
    let Some(obj) = run.objs.as_slice().get(j) else {
        return None;
    };
    let Some(face) = face_at(faces, run, j) else {
        return None;
    };
    match &face.soname {
        Some(soname) => Some(soname.as_bytes()),
        None => Some(obj.path.base()),
    }
}

/// The face of the object of this number.
fn face_at<'a>(faces: &'a [Face], run: &Run, j: usize) -> Option<&'a Face>
    ensures { MatchOption result (face_at faces.now run.now j ≡ None)
        (λ face. face_at faces.now run.now j ≡ Some face.now) }
{
    match run.objs.as_slice().get(j) {
        Some(obj) => faces.get(obj.face as usize),
        None => None,
    }
}

/// Whether a program has no soname, and an interpreter that every host has.
fn fits_as_program(alloc: Global, names: &[Name], face: &Face) -> Result<bool, NoMemory>
    ensures { IfOk result (λ fits. fits ≡ fits_as_program names.now (Some face.now)) }
{
    if face.soname.is_some() {
        return Ok(false);
    }
    match &face.interp {
        Some(text) => has_listed_base(alloc, names, text.as_bytes()),
        None => Ok(false),
    }
}

/// Whether the last part of an interpreter's path is on the list.
fn has_listed_base(alloc: Global, names: &[Name], text: &[u8]) -> Result<bool, NoMemory>
    ensures { IfOk result (λ listed. listed ≡ has_listed_interpreter names.now (Some text.now)) }
{
    match Abs::read(alloc, text) {
        Ok(path) => Ok(is_on_list(names, path.base())),
        Err(PathFault::NoMemory) => Err(NoMemory),
        Err(_) => Ok(false),
    }
}

/// Whether a name is on the list.
fn is_on_list(names: &[Name], name: &[u8]) -> bool
    ensures { result ≡ is_on_list names.now name.now }
{
    names.iter().any(|listed| listed.as_bytes() == name)
}
