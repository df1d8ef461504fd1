//! The items of a configuration that are copies. Definitions: `specs/Extras.antt` and
//! `specs/Faults.antt`.

ghost use Rattle.std.specs.Prelude.{◌≡◌, ◌++◌, All, IfOk, OnOk, map};
ghost use Rattle.app_config.specs.Ready.{AreTogether};
ghost use Rattle.appdir_files.specs.Writing.{IsProbed};
ghost use Rattle.ports.specs.View.{OnlyReads};
ghost use Rattle.build_plan.specs.Steps.{IsStepAnswer};
ghost use Rattle.extra_files.specs.Copying.{AreLauncherItems};
ghost use Rattle.extra_files.specs.Extras.{AreExtras};
ghost use Rattle.extra_files.specs.Faults.{program_names};

use crate::copying::data_items;
use crate::launchers::launcher_items;
use app_config::{Config, Program};
use appdir_files::Item;
use build_plan::BuildStop;
use load_model::{List, Name, NoMemory};
use ports::Tree;
use std::alloc::Global;

/// The data files in order, the icon under its own name and as `.DirIcon`, and the desktop file;
/// or the first fault: of the desktop file, then of the icon, then of the data files.
///
/// The desktop file is read, and of the others nothing but their lengths.
pub fn extra_items<T: Tree>(
    alloc: Global,
    config: &Config,
    tree: &mut T,
) -> Result<List<Item>, BuildStop>
    requires { AreTogether config.now.desktop config.now.icon }
    ensures answer { IsStepAnswer (T.seen tree.old) (T.seen tree.new)
        (λ world outcome. AreExtras world config.now outcome) result }
    ensures probed { IfOk result (λ items. All (IsProbed (T.seen tree.old).told) items) }
    ensures only_reads { OnlyReads (T.seen tree.old) (T.seen tree.new) }
{
    let launcher = match launcher_of(alloc, config, tree) {
        Ok(items) => items,
        Err(stop) => return Err(stop),
    };
    let items = match data_items(alloc, tree, config.files.as_slice()) {
        Ok(items) => items,
        Err(stop) => return Err(stop),
    };
    match joined(items, launcher) {
        Ok(items) => Ok(items),
        Err(_) => Err(BuildStop::NoMemory),
    }
}

/// The icon and the desktop file, where the configuration has them.
fn launcher_of<T: Tree>(
    alloc: Global,
    config: &Config,
    tree: &mut T,
) -> Result<List<Item>, BuildStop>
    requires { AreTogether config.now.desktop config.now.icon }
    ensures answer { IsStepAnswer (T.seen tree.old) (T.seen tree.new) (λ world outcome.
        AreLauncherItems world (program_names config.now) config.now.desktop config.now.icon
        outcome) result }
    ensures probed { IfOk result (λ items. All (IsProbed (T.seen tree.old).told) items) }
    ensures only_reads { OnlyReads (T.seen tree.old) (T.seen tree.new) }
{
    let (Some(desktop), Some(icon)) = (&config.desktop, &config.icon) else {
        return Ok(List::new(alloc));
    };
    match program_names(alloc, config) {
        Ok(programs) => launcher_items(alloc, tree, programs.as_slice(), desktop, icon),
        Err(_) => Err(BuildStop::NoMemory),
    }
}

/// The names of the programs, the main one first.
fn program_names(alloc: Global, config: &Config) -> Result<List<Name>, NoMemory>
    ensures { IfOk result (λ names. names ≡ program_names config.now) }
{
    let mut names = List::new(alloc);
    names.push(config.main.name.copy(alloc)?)?;
    push_names(alloc, &mut names, config.tools.as_slice())?;
    Ok(names)
}

fn push_names(alloc: Global, names: &mut List<Name>, tools: &[Program]) -> Result<(), NoMemory>
    ensures { OnOk result (names.new ≡ names.old ++ map (λ t. t.name) tools.now) }
{
    'tools: for tool in tools {
        names.push(tool.name.copy(alloc)?)?;
    }
    Ok(())
}

/// The items of both lists, one list behind the other.
fn joined(front: List<Item>, behind: List<Item>) -> Result<List<Item>, NoMemory>
    ensures { IfOk result (λ items. items ≡ front ++ behind) }
{
    let mut items = front.into_vec();
    let mut behind = behind.into_vec();
    match items.append(&mut behind) {
        Ok(()) => Ok(List::from_vec(items)),
        Err(_) => Err(NoMemory),
    }
}
