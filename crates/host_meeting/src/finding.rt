//! The files that a host has for the libraries of a record, each the first that is an object or
//! damaged in the listed directories.

ghost use Rattle.std.specs.Prelude.{◌≡◌, All, IfErr, IfOk, None, length, map};
ghost use Rattle.answers.specs.First.{first_some};
ghost use Rattle.load_model.specs.Faces.{face_or_flaw};
ghost use Rattle.load_model.specs.Opening.{IsPlace, OnlyGrew};
ghost use Rattle.host_list.specs.Meeting.{lib_difference, lib_object};
ghost use Rattle.host_meeting.specs.Files.{object_at};
ghost use Rattle.host_meeting.specs.Hosts.{OnHost};
ghost use Rattle.host_meeting.specs.Missing.{IsMiss, TellsOf, miss_by};

use crate::found::FoundLib;
use crate::libs::object_difference;
use crate::misses::Miss;
use host_list::{Difference, RecLib, Record};
use load_model::{List, OpenFault, Opener};
use path_text::Abs;
use search_paths::{Hit, SearchStop, search_dirs};
use std::alloc::Global;

/// The files of all libraries, up to the first that is not right.
pub fn find_libs<P: Opener>(
    alloc: Global,
    rec: &Record,
    opener: &mut P,
    dirs: &[Abs],
) -> Result<List<FoundLib>, Miss>
    ensures places { IfOk result (λ found.
        All (λ (f : FoundLib). IsPlace (P.seen opener.new) f.face) found) }
    ensures count { IfOk result (λ found. length found ≡ length rec.now.libs) }
    ensures found { IfOk result (λ found. OnHost (P.seen opener.old).told
        (P.seen opener.old).machine dirs.now (λ setting world.
        map (λ lib. lib_object face_or_flaw setting world rec.now lib.name) rec.now.libs
        ≡ map (object_at (P.seen opener.new).faces) found)) }
    ensures right { IfOk result (λ found. TellsOf (P.seen opener.old) dirs.now
        (λ setting world. first_some
        (map (lib_difference face_or_flaw setting world rec.now) rec.now.libs)) None) }
    ensures miss { IfErr result (IsMiss (P.seen opener.old) (P.seen opener.new) dirs.now
        (λ setting world. first_some
        (map (lib_difference face_or_flaw setting world rec.now) rec.now.libs))) }
    ensures grew { OnlyGrew (P.seen opener.old) (P.seen opener.new) }
{
    let mut found = List::new(alloc);
    for lib in rec.libs.as_slice() {
        match find_lib(alloc, rec, opener, dirs, lib) {
            Ok(file) => found.push(file)?,
            Err(miss) => return Err(miss),
        }
    }
    Ok(found)
}

/// The file of a library, if it is the right one.
fn find_lib<P: Opener>(
    alloc: Global,
    rec: &Record,
    opener: &mut P,
    dirs: &[Abs],
    lib: &RecLib,
) -> Result<FoundLib, Miss>
    ensures place { IfOk result (λ f. IsPlace (P.seen opener.new) f.face) }
    ensures found { IfOk result (λ f. OnHost (P.seen opener.old).told (P.seen opener.old).machine
        dirs.now (λ setting world. lib_object face_or_flaw setting world rec.now lib.now.name
        ≡ object_at (P.seen opener.new).faces f)) }
    ensures right { IfOk result (λ f. TellsOf (P.seen opener.old) dirs.now
        (λ setting world. lib_difference face_or_flaw setting world rec.now lib.now) None) }
    ensures miss { IfErr result (IsMiss (P.seen opener.old) (P.seen opener.new) dirs.now
        (λ setting world. lib_difference face_or_flaw setting world rec.now lib.now)) }
    ensures grew { OnlyGrew (P.seen opener.old) (P.seen opener.new) }
{
    match search_dirs(alloc, opener, dirs, &lib.name) {
        Ok(Hit::Found { path, id, face }) => {
            if let Some(difference) = object_difference(
                alloc,
                lib,
                &opener.faces()[face as usize],
            )? {
                return Err(Miss::Differs(difference));
            }
            Ok(FoundLib { path, id, face })
        }
        Ok(Hit::Missing) => Err(Miss::Differs(Difference::NoLib(lib.name.copy(alloc)?))),
        Err(SearchStop::Open(fault)) => Err(miss_of(fault)),
        Err(_) => Err(Miss::NoMemory),
    }
}

/// What a file that was not opened comes to.
fn miss_of(fault: OpenFault) -> Miss
    ensures { result ≡ miss_by fault }
{
    match fault {
        OpenFault::Read => Miss::Read,
        OpenFault::Damaged { path, flaw } => Miss::Differs(Difference::DamagedLib(path, flaw)),
        OpenFault::NoMemory => Miss::NoMemory,
    }
}
