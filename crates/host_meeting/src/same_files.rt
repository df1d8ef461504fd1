//! Whether two libraries of a record are one file of a host.

ghost use Rattle.std.specs.Prelude.{◌≡◌, [], IfOk, length, map};
ghost use Rattle.answers.specs.First.{first_some};
ghost use Rattle.lib_closure.specs.Clashes.{beside_earlier};
ghost use Rattle.load_model.specs.Faces.{face_or_flaw};
ghost use Rattle.host_list.specs.Meeting.{same_file};
ghost use Rattle.host_list.specs.declared.differences.Difference.TheVariants.{SameFile};
ghost use Rattle.host_meeting.specs.Files.{WhereFiles};

use crate::files::LibFile;
use host_list::{Difference, RecLib, Record};
use load_model::NoMemory;
use std::alloc::Global;
use text_sets::TextSet;

/// The first library that is the file of one before it.
pub fn same_file(
    alloc: Global,
    rec: &Record,
    files: &[LibFile<'_>],
) -> Result<Option<Difference>, NoMemory>
    requires { length files.now ≡ length rec.now.libs }
    ensures { IfOk result (λ found. WhereFiles rec.now files.now (λ setting world. found
        ≡ first_some (map (same_file face_or_flaw setting world rec.now)
        (beside_earlier [] rec.now.libs)))) }
{
    let libs = rec.libs.as_slice();
    let mut ids = TextSet::new(alloc);
    for (number, lib) in libs.iter().enumerate() {
        let id = files[number].id.as_bytes();
        match ids.position(id) {
            Some(place) => return Ok(Some(one_file(alloc, &libs[place], lib)?)),
            None => ids.add(alloc, id)?,
        }
    }
    Ok(None)
}

fn one_file(alloc: Global, earlier: &RecLib, lib: &RecLib) -> Result<Difference, NoMemory>
    ensures { IfOk result (λ d. d ≡ SameFile earlier.now.name lib.now.name) }
{
    let name = earlier.name.copy(alloc)?;
    Ok(Difference::SameFile(name, lib.name.copy(alloc)?))
}
