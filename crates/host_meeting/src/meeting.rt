//! Whether a host meets a record.

ghost use Rattle.std.specs.Prelude.{◌≡◌, ◌<◌, ◌++◌, All, IfErr, IfOk, None, length, map};
ghost use Rattle.answers.specs.First.{first_some};
ghost use Rattle.load_model.specs.Faces.{face_or_flaw};
ghost use Rattle.load_model.specs.Opening.{IsFew, IsPlace, OnlyGrew};
ghost use Rattle.load_model.specs.World.{World};
ghost use Rattle.load_model.specs.declared.setting.Setting.{Setting};
ghost use Rattle.host_list.specs.Meeting.{interp_difference, lib_difference, lib_object};
ghost use Rattle.host_meeting.specs.Files.{WhereFiles, difference_of_files, object_at};
ghost use Rattle.host_meeting.specs.Hosts.{OnHost};
ghost use Rattle.host_meeting.specs.Missing.{IsMiss, TellsOf};
ghost use Rattle.host_meeting.specs.Verdicts.{IsVerdict, IsWhole, verdict_by, verdict_of_miss};

use crate::asks::own_difference;
use crate::files::LibFile;
use crate::finding::find_libs;
use crate::found::{FoundLib, files_of, found_files};
use crate::interps::find_interps;
use crate::looks::look_difference;
use crate::misses::Miss;
use crate::same_files::same_file;
use crate::verdicts::{HostStop, Verdict};
use crate::versions::version_difference;
use host_list::{Difference, Record};
use load_model::{Face, List, NoMemory, Opener};
use path_text::Abs;
use std::alloc::Global;

/// Whether the host that an opener reads, with these directories, meets a record; else the first
/// demand that it does not meet.
pub fn host_meets<P: Opener>(
    alloc: Global,
    rec: &Record,
    opener: &mut P,
    dirs: &[Abs],
) -> Result<Verdict, HostStop>
    requires machine { (P.seen opener.old).machine ≡ rec.now.machine }
    requires whole { IsWhole rec.now }
    ensures answer { IsVerdict (P.seen opener.old) (P.seen opener.new) dirs.now rec.now result }
    ensures grew { OnlyGrew (P.seen opener.old) (P.seen opener.new) }
{
    match find_files(alloc, rec, opener, dirs) {
        Ok(found) => verdict_on(alloc, rec, opener.faces(), found.as_slice()),
        Err(miss) => verdict_of(miss),
    }
}

/// What a host comes to whose files are not all found.
fn verdict_of(miss: Miss) -> Result<Verdict, HostStop>
    ensures { result ≡ verdict_of_miss miss }
{
    match miss {
        Miss::Differs(difference) => Ok(Verdict::Fails(difference)),
        Miss::Read => Err(HostStop::Read),
        Miss::NoMemory => Err(HostStop::NoMemory),
    }
}

/// The files of the libraries of a record, where all interpreters and libraries are right.
fn find_files<P: Opener>(
    alloc: Global,
    rec: &Record,
    opener: &mut P,
    dirs: &[Abs],
) -> Result<List<FoundLib>, Miss>
    ensures places { IfOk result (λ found.
        All (λ (f : FoundLib). IsPlace (P.seen opener.new) f.face) found) }
    ensures count { IfOk result (λ found. length found ≡ length rec.now.libs) }
    ensures found { IfOk result (λ found. OnHost (P.seen opener.old).told
        (P.seen opener.old).machine dirs.now (λ setting world.
        map (λ lib. lib_object face_or_flaw setting world rec.now lib.name) rec.now.libs
        ≡ map (object_at (P.seen opener.new).faces) found)) }
    ensures right { IfOk result (λ found. TellsOf (P.seen opener.old) dirs.now
        (λ setting world. first_some
        (map (interp_difference face_or_flaw setting world rec.now) rec.now.interps
        ++ map (lib_difference face_or_flaw setting world rec.now) rec.now.libs)) None) }
    ensures miss { IfErr result (IsMiss (P.seen opener.old) (P.seen opener.new) dirs.now
        (λ setting world. first_some
        (map (interp_difference face_or_flaw setting world rec.now) rec.now.interps
        ++ map (lib_difference face_or_flaw setting world rec.now) rec.now.libs))) }
    ensures grew { OnlyGrew (P.seen opener.old) (P.seen opener.new) }
{
    if let Err(miss) = find_interps(alloc, rec, opener, dirs) {
        return Err(miss);
    }
    find_libs(alloc, rec, opener, dirs)
}

/// What is said of the files that were found.
fn verdict_on(
    alloc: Global,
    rec: &Record,
    faces: &[Face],
    found: &[FoundLib],
) -> Result<Verdict, HostStop>
    requires whole { IsWhole rec.now }
    requires places { All (λ (f : FoundLib). f.face < length faces.now) found.now }
    requires few { All IsFew faces.now }
    requires count { length found.now ≡ length rec.now.libs }
    ensures answer { IfOk result (λ verdict. (setting : Setting) (world : World)
        → map (λ lib. lib_object face_or_flaw setting world rec.now lib.name) rec.now.libs
        ≡ map (object_at faces.now) found.now
        → verdict ≡ verdict_by (difference_of_files face_or_flaw setting world rec.now)) }
    ensures memory { IfErr result (λ stop. stop ≡ HostStop.NoMemory) }
{
    match difference_on(alloc, rec, faces, found) {
        Ok(Some(difference)) => Ok(Verdict::Fails(difference)),
        Ok(None) => Ok(Verdict::Meets),
        Err(_) => Err(HostStop::NoMemory),
    }
}

/// The first demand that the files do not meet that were found.
fn difference_on<'a>(
    alloc: Global,
    rec: &'a Record,
    faces: &'a [Face],
    found: &'a [FoundLib],
) -> Result<Option<Difference>, NoMemory>
    requires whole { IsWhole rec.now }
    requires places { All (λ (f : FoundLib). f.face < length faces.now) found.now }
    requires few { All IsFew faces.now }
    requires count { length found.now ≡ length rec.now.libs }
    ensures { IfOk result (λ difference. (setting : Setting) (world : World)
        → map (λ lib. lib_object face_or_flaw setting world rec.now lib.name) rec.now.libs
        ≡ map (object_at faces.now) found.now
        → difference ≡ difference_of_files face_or_flaw setting world rec.now) }
{
    let known = found_files(alloc, faces, found)?;
    let files = files_of(alloc, known.as_slice())?;
    difference_in(alloc, rec, files.as_slice())
}

/// The first demand that these files do not meet, which are right one by one.
fn difference_in<'a>(
    alloc: Global,
    rec: &'a Record,
    files: &[LibFile<'a>],
) -> Result<Option<Difference>, NoMemory>
    requires whole { IsWhole rec.now }
    requires files { length files.now ≡ length rec.now.libs }
    ensures { IfOk result (λ found. WhereFiles rec.now files.now (λ setting world.
        found ≡ difference_of_files face_or_flaw setting world rec.now)) }
{
    if let Some(difference) = same_file(alloc, rec, files)? {
        return Ok(Some(difference));
    }
    if let Some(difference) = version_difference(alloc, rec, files)? {
        return Ok(Some(difference));
    }
    if let Some(difference) = look_difference(alloc, rec, files)? {
        return Ok(Some(difference));
    }
    own_difference(alloc, rec, files)
}
