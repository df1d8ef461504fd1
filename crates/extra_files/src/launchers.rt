//! A desktop file and its icon. Definitions: `specs/Copying.antt`.

ghost use Rattle.std.specs.Prelude.{◌≡◌, All, IfOk, length};
ghost use Rattle.answers.specs.Told.{WhereTold};
ghost use Rattle.app_config.specs.Ready.{IsPlaceable};
ghost use Rattle.appdir_files.specs.Writing.{IsProbed};
ghost use Rattle.ports.specs.Reading.{bytes_at};
ghost use Rattle.ports.specs.View.{OnlyReads};
ghost use Rattle.build_plan.specs.Steps.{IsStepAnswer};
ghost use Rattle.extra_files.specs.Copying.{AreLauncherItems, IsCheckedLength, IsEntryCheck, launcher_items};

use crate::checking::check_text;
use crate::copying::{copy_at, length_at};
use crate::stems::stem_of;
use appdir_files::Item;
use build_plan::BuildStop;
use load_model::{List, Name};
use path_text::{Abs, NoMemory};
use ports::Tree;
use std::alloc::Global;
use tree_opener::{ReadStop, read_whole};

/// A file of a tree: where it lies, and its length in bytes.
#[derive(Drop)]
pub struct Source<'a> {
    pub path: &'a Abs,
    pub len: u64,
}

/// The icon under its own name and as `.DirIcon`, and the desktop file, whose programs have these
/// names; or the first fault, the desktop file before the icon.
pub fn launcher_items<T: Tree>(
    alloc: Global,
    tree: &mut T,
    programs: &[Name],
    desktop: &Abs,
    icon: &Abs,
) -> Result<List<Item>, BuildStop>
    requires desktop { IsPlaceable desktop.now }
    requires icon { IsPlaceable icon.now }
    ensures answer { IsStepAnswer (T.seen tree.old) (T.seen tree.new) (λ world outcome.
        AreLauncherItems world programs.now (Some desktop.now) (Some icon.now) outcome) result }
    ensures probed { IfOk result (λ items. All (IsProbed (T.seen tree.old).told) items) }
    ensures only_reads { OnlyReads (T.seen tree.old) (T.seen tree.new) }
{
    let desktop_len = match checked_length(alloc, tree, programs, desktop, icon) {
        Ok(len) => len,
        Err(stop) => return Err(stop),
    };
    let icon_len = match length_at(alloc, tree, icon) {
        Ok(len) => len,
        Err(stop) => return Err(stop),
    };
    let desktop = Source {
        path: desktop,
        len: desktop_len,
    };
    let icon = Source {
        path: icon,
        len: icon_len,
    };
    match copies(alloc, &desktop, &icon) {
        Ok(items) => Ok(items),
        Err(_) => Err(BuildStop::NoMemory),
    }
}

/// The items of both.
fn copies(alloc: Global, desktop: &Source<'_>, icon: &Source<'_>) -> Result<List<Item>, NoMemory>
    requires desktop { IsPlaceable desktop.now.path.now }
    requires icon { IsPlaceable icon.now.path.now }
    ensures { IfOk result (λ items. items ≡ launcher_items desktop.now.path.now desktop.now.len
        icon.now.path.now icon.now.len) }
{
    let mut items = List::new(alloc);
    items.push(copy_at(alloc, icon.path.base(), icon.path, icon.len)?)?;
    items.push(copy_at(alloc, b".DirIcon", icon.path, icon.len)?)?;
    items.push(copy_at(alloc, desktop.path.base(), desktop.path, desktop.len)?)?;
    Ok(items)
}

/// The length of the desktop file, in which there is no fault.
fn checked_length<T: Tree>(
    alloc: Global,
    tree: &mut T,
    programs: &[Name],
    desktop: &Abs,
    icon: &Abs,
) -> Result<u64, BuildStop>
    ensures answer { IsStepAnswer (T.seen tree.old) (T.seen tree.new) (λ world outcome.
        IsCheckedLength world programs.now desktop.now icon.now outcome) result }
    ensures only_reads { OnlyReads (T.seen tree.old) (T.seen tree.new) }
{
    let len = match length_at(alloc, tree, desktop) {
        Ok(len) => len,
        Err(stop) => return Err(stop),
    };
    let file = Source { path: desktop, len };
    match check_file(alloc, tree, &file, programs, stem_of(icon)) {
        Ok(()) => Ok(len),
        Err(stop) => Err(stop),
    }
}

/// Reads a desktop file and checks it.
fn check_file<T: Tree>(
    alloc: Global,
    tree: &mut T,
    file: &Source<'_>,
    programs: &[Name],
    stem: &[u8],
) -> Result<(), BuildStop>
    requires { WhereTold (T.seen tree.old).told
        (λ world. length (bytes_at world file.now.path.now) ≡ file.now.len) }
    ensures answer { IsStepAnswer (T.seen tree.old) (T.seen tree.new) (λ world outcome.
        IsEntryCheck (bytes_at world file.now.path.now) programs.now stem.now outcome) result }
    ensures only_reads { OnlyReads (T.seen tree.old) (T.seen tree.new) }
{
    match read_whole(alloc, tree, file.path, file.len) {
        Ok(text) => check_text(alloc, text.as_slice(), programs, stem),
        Err(ReadStop::Failed) => Err(BuildStop::Read),
        Err(ReadStop::NoMemory) => Err(BuildStop::NoMemory),
    }
}
