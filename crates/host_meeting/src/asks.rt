//! Whether the versions that libraries of a host ask of one another are there.

ghost use Rattle.std.specs.Prelude.{◌≡◌, IfOk, MatchOption, Some, true, false, flat_map, length, map, not};
ghost use Rattle.answers.specs.First.{first_some, some_where};
ghost use Rattle.load_model.specs.Faces.{face_or_flaw};
ghost use Rattle.host_list.specs.Meeting.{lib_object, own_difference, own_differences};
ghost use Rattle.host_list.specs.declared.differences.Difference.TheVariants.{OwnVersion};
ghost use Rattle.host_record.specs.Said.{is_declared, lib_names, needs_declared};
ghost use Rattle.host_meeting.specs.Files.{WhereFiles, object_of};
ghost use Rattle.host_meeting.specs.Reaching.{AreReached};

use crate::files::LibFile;
use crate::lib_places::LibPlaces;
use crate::reaching::reached_from;
use host_list::{Difference, RecLib, Record};
use load_model::{Ask, Name, NoMemory};
use std::alloc::Global;
use text_sets::TextSet;

/// The first ask of a library that the libraries do not meet.
pub fn own_difference<'a>(
    alloc: Global,
    rec: &'a Record,
    files: &[LibFile<'a>],
) -> Result<Option<Difference>, NoMemory>
    requires declared { needs_declared rec.now.libs ≡ true }
    requires files { length files.now ≡ length rec.now.libs }
    ensures { IfOk result (λ found. WhereFiles rec.now files.now (λ setting world. found
        ≡ first_some (flat_map (own_differences face_or_flaw setting world rec.now)
        rec.now.libs))) }
{
    let libs = LibPlaces::of(alloc, rec)?;
    first_unmet(alloc, &libs, files)
}

/// The first ask of a library that these libraries do not meet.
fn first_unmet<'a>(
    alloc: Global,
    libs: &LibPlaces<'a>,
    files: &[LibFile<'a>],
) -> Result<Option<Difference>, NoMemory>
    requires declared { needs_declared libs.now.rec.now.libs ≡ true }
    requires files { length files.now ≡ length libs.now.rec.now.libs }
    ensures { IfOk result (λ found. WhereFiles libs.now.rec.now files.now (λ setting world. found
        ≡ first_some (flat_map (own_differences face_or_flaw setting world libs.now.rec.now)
        libs.now.rec.now.libs))) }
{
    for (number, lib) in libs.rec.libs.as_slice().iter().enumerate() {
        let face = files[number].face;
        let asks = face.asks.as_slice();
        if let Some(difference) = unmet_of(alloc, libs, files, lib, asks)? {
            return Ok(Some(difference));
        }
    }
    Ok(None)
}

/// The first ask of a library that is not met.
fn unmet_of<'a>(
    alloc: Global,
    libs: &LibPlaces<'a>,
    files: &[LibFile<'a>],
    lib: &'a RecLib,
    asks: &'a [Ask],
) -> Result<Option<Difference>, NoMemory>
    requires declared { needs_declared libs.now.rec.now.libs ≡ true }
    requires lib { is_declared (lib_names libs.now.rec.now.libs) lib.now.name ≡ true }
    requires files { length files.now ≡ length libs.now.rec.now.libs }
    ensures { IfOk result (λ found. WhereFiles libs.now.rec.now files.now (λ setting world. found
        ≡ first_some (map (own_difference face_or_flaw setting world libs.now.rec.now lib.now)
        asks.now))) }
{
    let reached = reached_from(alloc, libs, &lib.name)?;
    for ask in asks {
        if !is_met(libs, files, lib, &reached, ask) {
            return Ok(Some(unmet(alloc, lib, ask)?));
        }
    }
    Ok(None)
}

/// Whether an ask of a library, which reaches these names, is met.
fn is_met<'a>(
    libs: &LibPlaces<'a>,
    files: &[LibFile<'a>],
    lib: &RecLib,
    reached: &TextSet,
    ask: &'a Ask,
) -> bool
    requires declared { needs_declared libs.now.rec.now.libs ≡ true }
    requires lib { is_declared (lib_names libs.now.rec.now.libs) lib.now.name ≡ true }
    requires files { length files.now ≡ length libs.now.rec.now.libs }
    requires reached { AreReached libs.now.rec.now.libs lib.now.name reached.now }
    ensures { WhereFiles libs.now.rec.now files.now (λ setting world.
        own_difference face_or_flaw setting world libs.now.rec.now lib.now ask.now
        ≡ some_where (not result) (OwnVersion lib.now.name ask.now.file ask.now.name)) }
{
    if ask.weak {
        return true;
    }
    if !reached.contains(ask.file.as_bytes()) {
        return false;
    }
    match file_of(libs, files, &ask.file) {
        Some(file) => file.has_version(&ask.name),
        None => true,
    }
}

/// The file of the library of this name.
fn file_of<'a>(libs: &LibPlaces<'a>, files: &[LibFile<'a>], name: &'a Name) -> Option<LibFile<'a>>
    requires { length files.now ≡ length libs.now.rec.now.libs }
    ensures { MatchOption result (is_declared (lib_names libs.now.rec.now.libs) name.now ≡ false)
        (λ f. WhereFiles libs.now.rec.now files.now (λ setting world.
        lib_object face_or_flaw setting world libs.now.rec.now name.now ≡ Some (object_of f))) }
{
    match libs.place(name) {
        Some(place) => Some(files[place]),
        None => None,
    }
}

fn unmet(alloc: Global, lib: &RecLib, ask: &Ask) -> Result<Difference, NoMemory>
    ensures { IfOk result (λ d. d ≡ OwnVersion lib.now.name ask.now.file ask.now.name) }
{
    let name = lib.name.copy(alloc)?;
    let file = ask.file.copy(alloc)?;
    Ok(Difference::OwnVersion(name, file, ask.name.copy(alloc)?))
}
