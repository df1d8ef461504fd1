//! Which object the file of an ask names.
//!
//! The file of an ask is said in `specs/VersionCheck.antt` of `load_model`, the steps in
//! `specs/Firsts.antt`.

ghost use Rattle.std.specs.Prelude.{◌≡◌, ◌<◌, ◌^◌, All, IfSome, length, nat_le};
ghost use Rattle.std.specs.List.{find, flat_map, list_any, zip};
ghost use Rattle.load_model.specs.LoadList.{is_named, lesser_of};
ghost use Rattle.load_model.specs.Runs.{AreBelow, IsRunOver, face_at};
ghost use Rattle.load_model.specs.VersionCheck.{loaded_by, phase_at, soname_in, version_file_of};
ghost use Rattle.scope_lookup.specs.Asking.{asked_names};
ghost use Rattle.scope_lookup.specs.Firsts.{is_request_to, requests_in};

use load_model::{Face, List, Name, Run};

/// The first object for which the file's name is known at the end of the phase that brought the
/// object that asks.
///
/// Goes once through the objects that are loaded then, and through their requests.
pub fn version_file(
    faces: &[Face],
    run: &Run,
    asked: &List<List<Name>>,
    obj: u32,
    file: &Name,
) -> Option<u32>
    requires run { IsRunOver faces.now run.now }
    requires asked { asked.now ≡ asked_names faces.now run.now }
    requires obj { obj < length run.now.objs }
    ensures file { result ≡ version_file_of faces.now run.now obj file.now }
    ensures bound { IfSome result (λ k. k < length run.now.objs) }
{
    let phase = run.objs.as_slice()[obj as usize].phase;
    let opens = &run.opens.as_slice()[..phase as usize];
    let roots = &run.roots.as_slice()[..phase as usize];
    let needed = first_needed(run, asked, phase, file);
    let opened = first_target(run, phase, file, opens, roots);
    lesser_of(
        first_with_soname(faces, run, phase, file),
        lesser_of(needed, opened),
    )
}

/// The first object with this soname.
fn first_with_soname(faces: &[Face], run: &Run, phase: u32, file: &Name) -> Option<u32>
    requires run { IsRunOver faces.now run.now }
    ensures { result ≡ find (λ j. is_named (soname_in (face_at faces.now run.now j)) file.now)
        (loaded_by run.now phase) }
{
    for number in 0..run.objs.as_slice().len() as u32 {
        if is_loaded(run, number, phase) && has_soname(run.face_of(faces, number), file) {
            return Some(number);
        }
    }
    None
}

/// The first object that a need of this name went to.
fn first_needed(run: &Run, asked: &List<List<Name>>, phase: u32, file: &Name) -> Option<u32>
    requires few { length run.now.objs < 2 ^ 32 }
    requires asked { length asked.now ≡ length run.now.objs }
    requires lists { length run.now.targets ≡ length run.now.objs }
    requires targets { All (AreBelow (length run.now.objs)) run.now.targets }
    ensures { result ≡ find
        (λ j. list_any (is_request_to file.now j) (flat_map (requests_in asked.now run.now)
        (loaded_by run.now phase))) (loaded_by run.now phase) }
{
    let mut first = None;
    for number in 0..run.objs.as_slice().len() as u32 {
        if is_loaded(run, number, phase) {
            let names = asked.as_slice()[number as usize].as_slice();
            let targets = run.targets.as_slice()[number as usize].as_slice();
            first = lesser_of(first, first_target(run, phase, file, names, targets));
        }
    }
    first
}

/// The first of the objects that requests of this name went to, of these names with their targets.
fn first_target(run: &Run, phase: u32, file: &Name, names: &[Name], targets: &[u32]) -> Option<u32>
    requires few { length run.now.objs < 2 ^ 32 }
    requires targets { AreBelow (length run.now.objs) targets.now }
    ensures { result ≡ find (λ j. list_any (is_request_to file.now j) (zip names.now targets.now))
        (loaded_by run.now phase) }
{
    let mut first = None;
    for (name, target) in names.iter().zip(targets) {
        if name.as_bytes() == file.as_bytes() && is_loaded(run, *target, phase) {
            first = lesser_of(first, Some(*target));
        }
    }
    first
}

/// The lesser of two numbers, where there are any.
fn lesser_of(one: Option<u32>, other: Option<u32>) -> Option<u32>
    ensures { result ≡ lesser_of one other }
{
    match (one, other) {
        (Some(number), Some(second)) => Some(number.min(second)),
        (None, _) => other,
        (_, None) => one,
    }
}

/// Whether an object is loaded at the end of a phase.
fn is_loaded(run: &Run, number: u32, phase: u32) -> bool
    requires { number < length run.now.objs }
    ensures { result ≡ nat_le (phase_at run.now number) phase }
{
    run.objs.as_slice()[number as usize].phase <= phase
}

/// Whether a file has this soname.
fn has_soname(face: &Face, name: &Name) -> bool
    ensures { result ≡ is_named face.now.soname name.now }
{
    match &face.soname {
        Some(soname) => soname.as_bytes() == name.as_bytes(),
        None => false,
    }
}
