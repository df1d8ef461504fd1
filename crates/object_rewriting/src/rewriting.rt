//! The new bytes of an object: its file is read once more, looked at anew, and rewritten. The
//! definition is `rewritten` in `specs/Rewritten.antt`.

ghost use Rattle.std.specs.Prelude.{◌≡◌, IfOk, IfErr, None, Ok, length};
ghost use Rattle.answers.specs.Told.{WhereTold};
ghost use Rattle.elf_face.specs.ReadParts.{ArePartsOf};
ghost use Rattle.elf_rewrite.specs.FittingFace.{FitsFace};
ghost use Rattle.elf_rewrite.specs.NewFile.{Fits};
ghost use Rattle.load_model.specs.Faces.{face_or_flaw, first_flaw};
ghost use Rattle.load_model.specs.World.{file_at};
ghost use Rattle.load_model.specs.declared.world.WorldFile.{WorldFile};
ghost use Rattle.object_rewriting.specs.Rewritten.{IsRewriteAnswer, IsRewriteCause, rewritten};
ghost use Rattle.object_rewriting.specs.Steps.{IsEditAnswer, IsFitRewriting, IsInnerStop, IsPlanned};
ghost use Rattle.ports.specs.Reading.{bytes_at};
ghost use Rattle.ports.specs.View.{OnlyReads};

use crate::growing::laid_over;
use crate::naming::names_the_same;
use crate::stops::RewritingStop;
use byte_view::constants::LONGEST_FILE;
use elf_face::{FaceFault, Parts};
use elf_rewrite::{Change, Edit, RewriteStop, plan};
use load_model::{Face, Text};
use path_text::Abs;
use ports::{Found, ProbeStop, Tree};
use std::alloc::Global;
use tree_opener::{ReadStop, read_whole};

/// The bytes that the object at a path gets by a change that fits its face, as it was loaded.
///
/// Where the tree tells nothing, the file may be another one by now. Then the answer is `Changed`,
/// or the new bytes of a file that the change fits as well.
pub fn rewrite<T: Tree>(
    alloc: Global,
    tree: &mut T,
    path: &Abs,
    face: &Face,
    change: &Change,
) -> Result<Text, RewritingStop>
    requires { FitsFace change.now face.now }
    ensures answer { WhereTold (T.seen tree.old).told (λ world. (file : WorldFile)
        → file_at world path.now ≡ Some file → face_or_flaw file.bytes ≡ Ok face.now
        → IsRewriteAnswer (rewritten file.bytes change.now) result) }
    ensures new_file { IfOk result (λ text. IsFitRewriting change.now text) }
    ensures cause { IfErr result
        (λ stop. IsRewriteCause (T.seen tree.old).faults (T.seen tree.new).faults stop) }
    ensures only_reads { OnlyReads (T.seen tree.old) (T.seen tree.new) }
{
    match tree.probe(alloc, path) {
        Ok(Found::File { len, .. }) => rewrite_long(alloc, tree, path, len, face, change),
        Ok(Found::Absent) => Err(RewritingStop::Changed),
        Err(ProbeStop::Failed) => Err(RewritingStop::Read),
        Err(ProbeStop::NoMemory) => Err(RewritingStop::NoMemory),
    }
}

/// The same of a file of this length.
fn rewrite_long<T: Tree>(
    alloc: Global,
    tree: &mut T,
    path: &Abs,
    len: u64,
    face: &Face,
    change: &Change,
) -> Result<Text, RewritingStop>
    requires fits { FitsFace change.now face.now }
    requires len { WhereTold (T.seen tree.old).told
        (λ world. length (bytes_at world path.now) ≡ len) }
    ensures answer { WhereTold (T.seen tree.old).told (λ world.
        face_or_flaw (bytes_at world path.now) ≡ Ok face.now
        → IsRewriteAnswer (rewritten (bytes_at world path.now) change.now) result) }
    ensures new_file { IfOk result (λ text. IsFitRewriting change.now text) }
    ensures cause { IfErr result
        (λ stop. IsRewriteCause (T.seen tree.old).faults (T.seen tree.new).faults stop) }
    ensures only_reads { OnlyReads (T.seen tree.old) (T.seen tree.new) }
{
    if len > LONGEST_FILE {
        return Err(RewritingStop::Changed);
    }
    match read_whole(alloc, tree, path, len) {
        Ok(bytes) => rewrite_bytes(alloc, bytes, face, change),
        Err(ReadStop::Failed) => Err(RewritingStop::Read),
        Err(ReadStop::NoMemory) => Err(RewritingStop::NoMemory),
    }
}

/// The new bytes of a file by a change, where it is still the one with this face.
fn rewrite_bytes(
    alloc: Global,
    bytes: Vec<u8>,
    face: &Face,
    change: &Change,
) -> Result<Text, RewritingStop>
    requires { FitsFace change.now face.now }
    ensures answer { face_or_flaw bytes.items ≡ Ok face.now
        → IsRewriteAnswer (rewritten bytes.items change.now) result }
    ensures new_file { IfOk result (λ text. IsFitRewriting change.now text) }
    ensures stop { IfErr result (λ stop. IsInnerStop stop) }
{
    match planned(alloc, bytes.as_slice(), face, change) {
        Ok(edit) => match laid_over(bytes, &edit) {
            Ok(text) => Ok(text),
            Err(_) => Err(RewritingStop::NoMemory),
        },
        Err(stop) => Err(stop),
    }
}

/// The edit of a file by a change, where it is still the one with this face. What else was read of
/// the file is let go.
fn planned(alloc: Global, bytes: &[u8], face: &Face, change: &Change) -> Result<Edit, RewritingStop>
    requires { FitsFace change.now face.now }
    ensures { IsPlanned bytes.now face.now change.now result }
{
    match Parts::read(alloc, bytes) {
        Ok(parts) => planned_of(alloc, &parts, bytes, face, change),
        Err(FaceFault::Flawed(_)) => Err(RewritingStop::Changed),
        Err(FaceFault::NoMemory) => Err(RewritingStop::NoMemory),
    }
}

/// The same of a file without a flaw, by its parts.
fn planned_of(
    alloc: Global,
    parts: &Parts,
    bytes: &[u8],
    face: &Face,
    change: &Change,
) -> Result<Edit, RewritingStop>
    requires fits { FitsFace change.now face.now }
    requires unflawed { first_flaw bytes.now ≡ None }
    requires parts { ArePartsOf parts.now bytes.now }
    ensures { IsPlanned bytes.now face.now change.now result }
{
    match names_the_same(alloc, parts, bytes, face) {
        Ok(true) => edit_of(alloc, parts, bytes, change),
        Ok(false) => Err(RewritingStop::Changed),
        Err(_) => Err(RewritingStop::NoMemory),
    }
}

/// The edit of a file without a flaw by a change that fits it.
fn edit_of(
    alloc: Global,
    parts: &Parts,
    bytes: &[u8],
    change: &Change,
) -> Result<Edit, RewritingStop>
    requires unflawed { first_flaw bytes.now ≡ None }
    requires fits { Fits change.now bytes.now }
    requires parts { ArePartsOf parts.now bytes.now }
    ensures { IsEditAnswer bytes.now change.now result }
{
    match plan(
        alloc,
        &parts.elf,
        &parts.table,
        &parts.syms,
        &parts.versions,
        bytes,
        change,
    ) {
        Ok(edit) => Ok(edit),
        Err(RewriteStop::NoMemory) => Err(RewritingStop::NoMemory),
        Err(stop) => Err(RewritingStop::Rewrite(stop)),
    }
}
