//! The text of the record of some runs.

ghost use Rattle.std.specs.Prelude.{All};
ghost use Rattle.host_record.specs.Canonical.{IsCanonical};
ghost use Rattle.load_model.specs.Opening.{AreFew};
ghost use Rattle.load_model.specs.Runs.{IsRunOver};

use crate::sameness::are_same;
use case_rows::Fault;
use host_list::{Record, RecordFault, read_record, record_of, write_record};
use lib_closure::{ClosureStop, split};
use load_model::{Face, Name, Run};
use std::alloc::Global;

/// Splits the objects of these runs by a host list, and records what they ask of host libraries.
#[tactic(auto, using(host_list::proofs::ClosingLemmas::split_interps))]
pub fn record_text(
    alloc: Global,
    faces: &[Face],
    runs: &[Run],
    names: &[Name],
) -> Result<Vec<u8>, Fault>
    requires runs { All (IsRunOver faces.now) runs.now }
    requires few { AreFew faces.now }
{
    if runs.is_empty() {
        return Err(Fault::Field("programs"));
    }
    match split(alloc, faces, runs, names) {
        Ok(split) => {
            let rec = record_of(alloc, faces, faces, runs, &split)?;
            text_of_record(alloc, &rec)
        }
        Err(ClosureStop::NoMemory) => Err(Fault::NoMemory),
        Err(_) => Err(Fault::Field("split")),
    }
}

/// The text of a record, which is read as the same.
fn text_of_record(alloc: Global, rec: &Record) -> Result<Vec<u8>, Fault>
    requires { IsCanonical rec.now }
{
    let text = write_record(alloc, rec)?;
    match read_record(alloc, text.as_bytes()) {
        Ok(again) if are_same(rec, &again) => Ok(Vec::from_slice(alloc, text.as_bytes())?),
        Ok(_) => Err(Fault::Field("record that is read again")),
        Err(RecordFault::Line(_)) => Err(Fault::Field("line of the record")),
        Err(RecordFault::NoMemory) => Err(Fault::NoMemory),
    }
}
