//! The files that were found for the libraries of a record.

ghost use Rattle.std.specs.Prelude.{◌≡◌, ◌<◌, All, IfOk, Some, map, length};
ghost use Rattle.load_model.specs.Opening.{IsFew};
ghost use Rattle.host_meeting.specs.Files.{object_at, object_found, object_of};
ghost use Rattle.host_meeting.specs.Sets.{IsSetOf};

use crate::files::{FoundFile, LibFile};
use load_model::{Face, Name, NoMemory};
use path_text::Abs;
use std::alloc::Global;
use text_sets::TextSet;

/// The file that was found for a library: the path that decided, which file it is, and the place of
/// its face in the opener's table.
#[derive(Drop)]
pub struct FoundLib {
    pub path: Abs,
    pub id: Name,
    pub face: u32,
}

/// The files that were found, with their faces and versions.
///
/// Takes time in proportion to the versions that they define.
pub fn found_files<'a>(
    alloc: Global,
    faces: &'a [Face],
    found: &'a [FoundLib],
) -> Result<Vec<FoundFile<'a>>, NoMemory>
    requires places { All (λ (f : FoundLib). f.face < length faces.now) found.now }
    requires few { All IsFew faces.now }
    ensures { IfOk result (λ files. map (λ f. Some (object_found f)) files.items
        ≡ map (object_at faces.now) found.now) }
{
    let mut files = Vec::new(alloc);
    for lib in found {
        let file = found_file(alloc, faces, lib)?;
        match files.push(file) {
            Ok(()) => {}
            Err(_) => return Err(NoMemory),
        }
    }
    Ok(files)
}

fn found_file<'a>(
    alloc: Global,
    faces: &'a [Face],
    lib: &'a FoundLib,
) -> Result<FoundFile<'a>, NoMemory>
    requires place { lib.now.face < length faces.now }
    requires few { All IsFew faces.now }
    ensures { IfOk result (λ f. Some (object_found f) ≡ object_at faces.now lib.now) }
{
    let face = &faces[lib.face as usize];
    let versions = versions_of(alloc, face.defs.as_slice())?;
    Ok(FoundFile {
        lib,
        face,
        versions,
    })
}

/// Names, each once.
fn versions_of(alloc: Global, names: &[Name]) -> Result<TextSet, NoMemory>
    ensures { IfOk result (λ set. IsSetOf names.now set) }
{
    let mut set = TextSet::new(alloc);
    for name in names {
        set.add(alloc, name.as_bytes())?;
    }
    Ok(set)
}

/// The files of libraries, in order.
pub fn files_of<'a>(alloc: Global, found: &'a [FoundFile<'a>]) -> Result<Vec<LibFile<'a>>, NoMemory>
    ensures { IfOk result (λ files. map (λ f. Some (object_of f)) files.items
        ≡ map (λ f. Some (object_found f)) found.now) }
{
    let mut files = Vec::new(alloc);
    for file in found {
        match files.push(file_of(file)) {
            Ok(()) => {}
            Err(_) => return Err(NoMemory),
        }
    }
    Ok(files)
}

fn file_of<'a>(file: &'a FoundFile<'a>) -> LibFile<'a>
    ensures { object_of result ≡ object_found file.now }
{
    LibFile {
        path: &file.lib.path,
        id: &file.lib.id,
        face: file.face,
        versions: &file.versions,
    }
}
