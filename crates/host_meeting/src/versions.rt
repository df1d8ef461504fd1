//! Whether the files of a host have the versions that are asked of them.

ghost use Rattle.std.specs.Prelude.{◌≡◌, ◌<◌, IfOk, length, map};
ghost use Rattle.std.specs.List.{AllByRecursion};
ghost use Rattle.answers.specs.First.{first_some};
ghost use Rattle.load_model.specs.Faces.{face_or_flaw};
ghost use Rattle.host_list.specs.Meeting.{version_difference};
ghost use Rattle.host_record.specs.Canonical.{IsVersionOver};
ghost use Rattle.host_meeting.specs.Files.{WhereFiles};

use crate::files::LibFile;
use host_list::{Difference, RecVersion, Record};
use load_model::NoMemory;
use std::alloc::Global;

/// The first version that a library lacks.
pub fn version_difference(
    alloc: Global,
    rec: &Record,
    files: &[LibFile<'_>],
) -> Result<Option<Difference>, NoMemory>
    requires over { AllByRecursion (IsVersionOver rec.now.libs) rec.now.versions }
    requires files { length files.now ≡ length rec.now.libs }
    ensures { IfOk result (λ found. WhereFiles rec.now files.now (λ setting world. found
        ≡ first_some (map (version_difference face_or_flaw setting world rec.now)
        rec.now.versions))) }
{
    for version in rec.versions.as_slice() {
        if let Some(difference) = lacking_version(alloc, rec, files, version)? {
            return Ok(Some(difference));
        }
    }
    Ok(None)
}

/// Whether a library lacks a version.
fn lacking_version(
    alloc: Global,
    rec: &Record,
    files: &[LibFile<'_>],
    version: &RecVersion,
) -> Result<Option<Difference>, NoMemory>
    requires over { version.now.lib < length rec.now.libs }
    requires files { length files.now ≡ length rec.now.libs }
    ensures { IfOk result (λ found. WhereFiles rec.now files.now (λ setting world.
        found ≡ version_difference face_or_flaw setting world rec.now version.now)) }
{
    if files[version.lib as usize].has_version(&version.version) {
        return Ok(None);
    }
    let name = rec.libs.as_slice()[version.lib as usize].name.copy(alloc)?;
    Ok(Some(Difference::NoVersion(name, version.version.copy(alloc)?)))
}
