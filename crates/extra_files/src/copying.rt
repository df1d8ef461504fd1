//! Files that are copied as they are, by their lengths. Definitions: `specs/Copying.antt`.

ghost use Rattle.std.specs.Prelude.{◌≡◌, All, IfOk, None};
ghost use Rattle.appdir_files.specs.Writing.{IsProbed};
ghost use Rattle.path_text.specs.Target.{target_fault};
ghost use Rattle.ports.specs.View.{OnlyReads};
ghost use Rattle.build_plan.specs.Steps.{IsStepAnswer};
ghost use Rattle.extra_files.specs.Copying.{AreDataItems, IsDataItem, IsLengthAt, copy_item};

use app_config::Data;
use appdir_files::{Body, Item};
use build_plan::BuildStop;
use load_model::List;
use path_text::{Abs, NoMemory, Rel, RelFault};
use ports::{Found, ProbeStop, Tree};
use refusals::{FileRefusal, Refusal};
use std::alloc::Global;

/// The length of the file at a path, in bytes.
pub fn length_at<T: Tree>(alloc: Global, tree: &mut T, path: &Abs) -> Result<u64, BuildStop>
    ensures answer { IsStepAnswer (T.seen tree.old) (T.seen tree.new)
        (λ world outcome. IsLengthAt world path.now outcome) result }
    ensures only_reads { OnlyReads (T.seen tree.old) (T.seen tree.new) }
{
    match tree.probe(alloc, path) {
        Ok(Found::File { len, .. }) => Ok(len),
        Ok(Found::Absent) => match path.copy(alloc) {
            Ok(path) => Err(absent(path)),
            Err(_) => Err(BuildStop::NoMemory),
        },
        Err(ProbeStop::Failed) => Err(BuildStop::Read),
        Err(ProbeStop::NoMemory) => Err(BuildStop::NoMemory),
    }
}

/// No file is at the path.
fn absent(path: Abs) -> BuildStop
    ensures { result ≡ BuildStop.Refused (Refusal.Files (FileRefusal.FileAbsent path)) }
{
    BuildStop::Refused(Refusal::Files(FileRefusal::FileAbsent(path)))
}

/// The items of data files, or the first that is absent.
pub fn data_items<T: Tree>(
    alloc: Global,
    tree: &mut T,
    files: &[Data],
) -> Result<List<Item>, BuildStop>
    ensures answer { IsStepAnswer (T.seen tree.old) (T.seen tree.new)
        (λ world outcome. AreDataItems world files.now outcome) result }
    ensures probed { IfOk result (λ items. All (IsProbed (T.seen tree.old).told) items) }
    ensures only_reads { OnlyReads (T.seen tree.old) (T.seen tree.new) }
{
    let mut items = List::new(alloc);
    'files: for file in files {
        match data_item(alloc, tree, file) {
            Ok(item) => items.push(item)?,
            Err(stop) => return Err(stop),
        }
    }
    Ok(items)
}

fn data_item<T: Tree>(alloc: Global, tree: &mut T, file: &Data) -> Result<Item, BuildStop>
    ensures answer { IsStepAnswer (T.seen tree.old) (T.seen tree.new)
        (λ world outcome. IsDataItem world file.now outcome) result }
    ensures probed { IfOk result (λ item. IsProbed (T.seen tree.old).told item) }
    ensures only_reads { OnlyReads (T.seen tree.old) (T.seen tree.new) }
{
    match length_at(alloc, tree, &file.from) {
        Ok(len) => match copy_of(alloc, file, len) {
            Ok(item) => Ok(item),
            Err(_) => Err(BuildStop::NoMemory),
        },
        Err(stop) => Err(stop),
    }
}

fn copy_of(alloc: Global, file: &Data, len: u64) -> Result<Item, NoMemory>
    ensures { IfOk result (λ item. item ≡ copy_item file.now.to file.now.from len) }
{
    let path = file.to.copy(alloc)?;
    let from = file.from.copy(alloc)?;
    Ok(copy_item(path, from, len))
}

/// A copy at a place that is a target.
pub fn copy_at(alloc: Global, place: &[u8], from: &Abs, len: u64) -> Result<Item, NoMemory>
    requires { target_fault place.now ≡ None }
    ensures { IfOk result (λ item. item ≡ copy_item place.now from.now len) }
{
    let path = target(alloc, place)?;
    let from = from.copy(alloc)?;
    Ok(copy_item(path, from, len))
}

fn target(alloc: Global, place: &[u8]) -> Result<Rel, NoMemory>
    requires { target_fault place.now ≡ None }
    ensures { IfOk result (λ path. path ≡ place.now) }
{
    match Rel::read(alloc, place) {
        Ok(path) => Ok(path),
        Err(fault) => {
            let is_memory = matches!(fault, RelFault::NoMemory);
            prove!(is_memory);
            Err(NoMemory)
        }
    }
}

/// A copy that may not be run.
fn copy_item(path: Rel, from: Abs, len: u64) -> Item
    ensures { result ≡ copy_item path from len }
{
    Item {
        path,
        executable: false,
        body: Body::Copy { from, len },
    }
}
