//! What a file is to be that stands for a library of a record.

ghost use Rattle.std.specs.Prelude.{◌≡◌, ◌||◌, IfOk, is_some};
ghost use Rattle.std.specs.Option.{option_map};
ghost use Rattle.answers.specs.First.{some_where};
ghost use Rattle.load_model.specs.Faces.{face_or_flaw};
ghost use Rattle.load_model.specs.World.{World};
ghost use Rattle.load_model.specs.declared.setting.Setting.{Setting};
ghost use Rattle.host_list.specs.Meeting.{differ_at, first_differing, object_difference, soname_difference};
ghost use Rattle.host_list.specs.declared.differences.Difference.TheVariants.{HasRunPath, NeedsDiffer};
ghost use Rattle.host_record.specs.declared.records.Record.{Record as Recorded};

use host_list::{Difference, RecLib};
use load_model::{Face, Name, NoMemory};
use std::alloc::Global;

/// What keeps an object from being this library: its soname, a run path, or its needs.
pub fn object_difference(
    alloc: Global,
    lib: &RecLib,
    face: &Face,
) -> Result<Option<Difference>, NoMemory>
    ensures { IfOk result (λ found. (setting : Setting) (world : World) (r : Recorded)
        → found ≡ object_difference face_or_flaw setting world r lib.now face.now) }
{
    if let Some(difference) = soname_difference(alloc, lib, face)? {
        return Ok(Some(difference));
    }
    if let Some(difference) = run_path_difference(alloc, lib, face)? {
        return Ok(Some(difference));
    }
    needs_difference(alloc, lib, face)
}

/// Whether an object has a run path.
fn run_path_difference(
    alloc: Global,
    lib: &RecLib,
    face: &Face,
) -> Result<Option<Difference>, NoMemory>
    ensures { IfOk result (λ found. found ≡ some_where
        (is_some face.now.rpath || is_some face.now.runpath) (HasRunPath lib.now.name)) }
{
    if face.rpath.is_none() && face.runpath.is_none() {
        return Ok(None);
    }
    Ok(Some(Difference::HasRunPath(lib.name.copy(alloc)?)))
}

/// Whether an object has another soname than the name of the library.
fn soname_difference(
    alloc: Global,
    lib: &RecLib,
    face: &Face,
) -> Result<Option<Difference>, NoMemory>
    ensures { IfOk result (λ found. (setting : Setting) (world : World) (r : Recorded)
        → found ≡ soname_difference face_or_flaw setting world r lib.now.name face.now.soname) }
{
    let Some(soname) = &face.soname else {
        return Ok(None);
    };
    if soname.as_bytes() == lib.name.as_bytes() {
        return Ok(None);
    }
    let name = lib.name.copy(alloc)?;
    Ok(Some(Difference::SonameDiffers(name, soname.copy(alloc)?)))
}

/// Whether an object needs others than the library is recorded to need.
fn needs_difference(
    alloc: Global,
    lib: &RecLib,
    face: &Face,
) -> Result<Option<Difference>, NoMemory>
    ensures { IfOk result (λ found. found ≡ option_map (NeedsDiffer lib.now.name)
        (first_differing lib.now.needs face.now.needs)) }
{
    let Some(place) = first_differing(lib.needs.as_slice(), face.needs.as_slice()) else {
        return Ok(None);
    };
    // needs that no record has in memory
    if place as u64 >= 1 << 32 {
        return Err(NoMemory);
    }
    let name = lib.name.copy(alloc)?;
    Ok(Some(Difference::NeedsDiffer(name, place as u32)))
}

/// The least place at which two lists of names differ.
#[tactic(auto, unfolding(load_model::specs::LoadList::up_to))]
fn first_differing(xs: &[Name], ys: &[Name]) -> Option<usize>
    ensures { result ≡ first_differing xs.now ys.now }
{
    for place in 0..xs.len().max(ys.len()) {
        if differ_at(xs, ys, place) {
            return Some(place);
        }
    }
    None
}

/// Whether two lists of names differ at a place.
fn differ_at(xs: &[Name], ys: &[Name], place: usize) -> bool
    ensures { result ≡ differ_at xs.now ys.now place }
{
    match (xs.get(place), ys.get(place)) {
        (Some(x), Some(y)) => x.as_bytes() != y.as_bytes(),
        (None, None) => false,
        _ => true,
    }
}
