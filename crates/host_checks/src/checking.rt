//! `host OUT [DIR ..]`: says whether a host meets the record of a directory. Definitions:
//! `specs/Hosting.antt`.

ghost use Rattle.std.specs.Prelude.{◌≡◌, [], ◌∷◌, ◌++◌, codes};
ghost use Rattle.build_plan.specs.Steps.{IsStepAnswer};
ghost use Rattle.ports.specs.View.{OnlyReads};
ghost use Rattle.host_checks.specs.Hosting.{HostCheck};
ghost use Rattle.host_checks.specs.Reading.{stop_of_record};
ghost use Rattle.host_checks.specs.Verdicts.{IsSaidOf, stop_of_host};

use crate::hosts::tree_meets;
use crate::records::record_at;
use crate::stops::RecordStop;
use build_plan::BuildStop;
use host_meeting::{HostStop, Verdict};
use load_model::Text;
use path_text::Abs;
use ports::Tree;
use refusals::{FolderRefusal, Refusal};
use std::alloc::Global;

/// Whether the tree, whose libraries are looked for in these directories, meets the record of the
/// directory at a place: the line that says so, or why it is refused.
pub fn check_host<T: Tree>(
    alloc: Global,
    tree: &mut T,
    place: &Abs,
    dirs: &[Abs],
) -> Result<Text, BuildStop>
    ensures answer { IsStepAnswer (T.seen tree.old) (T.seen tree.new)
        (λ world outcome. HostCheck world place.now dirs.now outcome) result }
    ensures only_reads { OnlyReads (T.seen tree.old) (T.seen tree.new) }
{
    let rec = match record_at(alloc, tree, place) {
        Ok(rec) => rec,
        Err(stop) => return Err(stop_of_record(stop)),
    };
    match tree_meets(alloc, tree, &rec, dirs) {
        Ok(verdict) => said_of(alloc, verdict),
        Err(stop) => Err(stop_of_host(stop)),
    }
}

/// What is said of a verdict.
fn said_of(alloc: Global, verdict: Verdict) -> Result<Text, BuildStop>
    ensures { IsSaidOf verdict result }
{
    match verdict {
        Verdict::Meets => match Text::from_bytes(alloc, b"meets\n") {
            Ok(text) => Ok(text),
            Err(_) => Err(BuildStop::NoMemory),
        },
        Verdict::Fails(difference) => Err(BuildStop::Refused(Refusal::Folder(
            FolderRefusal::HostFails(difference),
        ))),
    }
}

/// What a check stops with where there is no record.
fn stop_of_record(stop: RecordStop) -> BuildStop
    ensures { result ≡ stop_of_record stop }
{
    let refusal = match stop {
        RecordStop::Absent(path) => FolderRefusal::RecordAbsent(path),
        RecordStop::Line(number) => FolderRefusal::RecordLine(number),
        RecordStop::Read => return BuildStop::Read,
        RecordStop::NoMemory => return BuildStop::NoMemory,
    };
    BuildStop::Refused(Refusal::Folder(refusal))
}

/// What a check stops with where nothing is answered of the host.
fn stop_of_host(stop: HostStop) -> BuildStop
    ensures { result ≡ stop_of_host stop }
{
    match stop {
        HostStop::Read => BuildStop::Read,
        HostStop::NoMemory => BuildStop::NoMemory,
    }
}
