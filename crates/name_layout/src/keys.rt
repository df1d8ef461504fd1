//! The keys of bundled libraries, which must be file names where no other name is given.
//!
//! Said in `specs/Layouts.antt`.

ghost use Rattle.std.specs.Prelude.{◌≡◌, IfOk};
ghost use Rattle.std.specs.Option.{option_map};
ghost use Rattle.name_layout.specs.Layouts.{bad_key, first_bad_key, member_key, soname_at};

use crate::opened_names::OpenedNames;
use crate::stops::NameStop;
use lib_closure::Member;
use load_model::{Face, Name, NoMemory};
use path_text::is_file_name;
use std::alloc::Global;

/// The key of a library: its soname, or else the last part of its path.
pub fn member_key<'a>(faces: &'a [Face], lib: &'a Member) -> &'a [u8]
    ensures { result.now ≡ member_key faces.now lib.now }
{
    match soname_at(faces, lib.face) {
        Some(soname) => soname.as_bytes(),
        None => lib.path.base(),
    }
}

/// The soname of the face at this place.
fn soname_at(faces: &[Face], place: u32) -> Option<&Name>
    ensures { option_map (λ name. name.now) result ≡ soname_at faces.now place }
{
    match faces.get(place as usize) {
        Some(face) => face.soname.as_ref(),
        None => None,
    }
}

/// The first key that is to be a file name and can be none.
#[tactic(auto, unfolding(crate::specs::Layouts::first_bad_key))]
pub fn first_bad_key(
    alloc: Global,
    faces: &[Face],
    names: &OpenedNames<'_>,
) -> Result<Option<NameStop>, NoMemory>
    ensures { IfOk result (λ found. found ≡ first_bad_key faces.now names.now.runs.now
        names.now.libs.split.now names.now.names.now) }
{
    for lib in names.libs.split.libs.as_slice() {
        if let Some(stop) = bad_key(alloc, faces, names, lib)? {
            return Ok(Some(stop));
        }
    }
    Ok(None)
}

/// The key of a library that is not opened, where it can be no file name.
fn bad_key(
    alloc: Global,
    faces: &[Face],
    names: &OpenedNames<'_>,
    lib: &Member,
) -> Result<Option<NameStop>, NoMemory>
    ensures { IfOk result (λ found. found ≡ bad_key faces.now names.now.runs.now
        names.now.libs.split.now names.now.names.now lib.now) }
{
    if names.first_of_root(lib.id.as_bytes()).is_some() {
        return Ok(None);
    }
    let key = member_key(faces, lib);
    if is_file_name(key) {
        return Ok(None);
    }
    Ok(Some(NameStop::BadFileName(Name::from_bytes(alloc, key)?)))
}
