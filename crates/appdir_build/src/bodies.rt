//! Programs and bundled libraries as they are written: with the texts of their changes, or as they
//! lie where nothing changes. Definitions: `specs/Objects.antt`.

ghost use Rattle.std.specs.Prelude.{◌≡◌, IfOk};
ghost use Rattle.elf_rewrite.specs.FittingFace.{FitsFace};
ghost use Rattle.ports.specs.View.{OnlyReads};
ghost use Rattle.build_plan.specs.Steps.{IsStepAnswer};
ghost use Rattle.appdir_files.specs.Writing.{IsBodyProbed};
ghost use Rattle.load_model.specs.declared.faces.Face.{Face};
ghost use Rattle.object_rewriting.specs.declared.stops.RewritingStop.TheVariants.{Changed};
ghost use Rattle.appdir_build.specs.Writing.{IsBodyFor, IsCopyOf, IsFaced, IsStopFor};

use crate::refusing::stop_of_rewrite;
use appdir_files::Body;
use build_plan::BuildStop;
use elf_rewrite::Change;
use lib_closure::Member;
use load_model::Face;
use object_changes::is_unchanged;
use object_rewriting::{RewritingStop, rewrite};
use path_text::Abs;
use ports::{Found, ProbeStop, Tree};
use refusals::{FolderRefusal, Refusal};
use std::alloc::Global;

/// The bytes of an object with this face by its change. One that stays as it is is copied when it
/// is written.
pub fn body_of<T: Tree>(
    alloc: Global,
    tree: &mut T,
    member: &Member,
    face: &Face,
    change: &Change,
) -> Result<Body, BuildStop>
    requires { FitsFace change.now face.now }
    ensures answer { IsStepAnswer (T.seen tree.old) (T.seen tree.new) (λ world outcome.
        IsFaced world member.now.path face.now
        → IsBodyFor world (member.now, change.now) outcome) result }
    ensures probed { IfOk result (IsBodyProbed (T.seen tree.old).told) }
    ensures only_reads { OnlyReads (T.seen tree.old) (T.seen tree.new) }
{
    if is_unchanged(face, change) {
        return copy_of(alloc, tree, &member.path);
    }
    match rewrite(alloc, tree, &member.path, face, change) {
        Ok(bytes) => Ok(Body::Bytes(bytes)),
        Err(stop) => Err(stop_at(alloc, &member.path, stop)),
    }
}

/// A copy of the file at a path.
fn copy_of<T: Tree>(alloc: Global, tree: &mut T, path: &Abs) -> Result<Body, BuildStop>
    ensures answer { IsStepAnswer (T.seen tree.old) (T.seen tree.new) (λ world outcome.
        (face : Face) → IsFaced world path.now face → IsCopyOf world path.now outcome) result }
    ensures probed { IfOk result (IsBodyProbed (T.seen tree.old).told) }
    ensures only_reads { OnlyReads (T.seen tree.old) (T.seen tree.new) }
{
    match tree.probe(alloc, path) {
        Ok(Found::File { len, .. }) => match path.copy(alloc) {
            Ok(from) => Ok(Body::Copy { from, len }),
            Err(_) => Err(BuildStop::NoMemory),
        },
        Ok(Found::Absent) => Err(changed(alloc, path)),
        Err(ProbeStop::Failed) => Err(BuildStop::Read),
        Err(ProbeStop::NoMemory) => Err(BuildStop::NoMemory),
    }
}

/// Why the object at a path is not rewritten.
fn stop_at(alloc: Global, path: &Abs, stop: RewritingStop) -> BuildStop
    ensures { IsStopFor path.now stop result }
{
    match stop {
        RewritingStop::Rewrite(stop) => match path.copy(alloc) {
            Ok(path) => stop_of_rewrite(path, stop),
            Err(_) => BuildStop::NoMemory,
        },
        RewritingStop::Changed => changed(alloc, path),
        RewritingStop::Read => BuildStop::Read,
        RewritingStop::NoMemory => BuildStop::NoMemory,
    }
}

/// The file at a path is not what it was when it was loaded.
fn changed(alloc: Global, path: &Abs) -> BuildStop
    ensures { IsStopFor path.now Changed result }
{
    match path.copy(alloc) {
        Ok(path) => BuildStop::Refused(Refusal::Folder(FolderRefusal::FileChanged(path))),
        Err(_) => BuildStop::NoMemory,
    }
}
