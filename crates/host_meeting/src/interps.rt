//! Whether the interpreters of a record are files of a host.

ghost use Rattle.std.specs.Prelude.{IfErr, None, OnOk, map};
ghost use Rattle.answers.specs.First.{first_some};
ghost use Rattle.load_model.specs.Faces.{face_or_flaw};
ghost use Rattle.load_model.specs.Opening.{OnlyGrew};
ghost use Rattle.host_list.specs.Meeting.{interp_difference};
ghost use Rattle.host_meeting.specs.Missing.{IsMiss, TellsOf};

use crate::misses::Miss;
use host_list::{Difference, Record};
use load_model::{OpenFault, Opened, Opener};
use path_text::Abs;
use std::alloc::Global;

/// Sees that each interpreter is a file.
pub fn find_interps<P: Opener>(
    alloc: Global,
    rec: &Record,
    opener: &mut P,
    dirs: &[Abs],
) -> Result<(), Miss>
    ensures met { OnOk result (TellsOf (P.seen opener.old) dirs.now
        (λ setting world. first_some
        (map (interp_difference face_or_flaw setting world rec.now) rec.now.interps)) None) }
    ensures miss { IfErr result (IsMiss (P.seen opener.old) (P.seen opener.new) dirs.now
        (λ setting world. first_some
        (map (interp_difference face_or_flaw setting world rec.now) rec.now.interps))) }
    ensures grew { OnlyGrew (P.seen opener.old) (P.seen opener.new) }
{
    for path in rec.interps.as_slice() {
        if let Err(miss) = find_interp(alloc, rec, opener, dirs, path) {
            return Err(miss);
        }
    }
    Ok(())
}

/// Sees that an interpreter is a file.
fn find_interp<P: Opener>(
    alloc: Global,
    rec: &Record,
    opener: &mut P,
    dirs: &[Abs],
    path: &Abs,
) -> Result<(), Miss>
    ensures met { OnOk result (TellsOf (P.seen opener.old) dirs.now
        (λ setting world. interp_difference face_or_flaw setting world rec.now path.now) None) }
    ensures miss { IfErr result (IsMiss (P.seen opener.old) (P.seen opener.new) dirs.now
        (λ setting world. interp_difference face_or_flaw setting world rec.now path.now)) }
    ensures grew { OnlyGrew (P.seen opener.old) (P.seen opener.new) }
{
    match opener.open(alloc, path) {
        Ok(Opened::Absent) => Err(Miss::Differs(Difference::NoInterp(path.copy(alloc)?))),
        Ok(Opened::Other) => Ok(()),
        Ok(Opened::Object { .. }) => Ok(()),
        Err(OpenFault::Damaged { .. }) => Ok(()),
        Err(OpenFault::Read) => Err(Miss::Read),
        Err(OpenFault::NoMemory) => Err(Miss::NoMemory),
    }
}
