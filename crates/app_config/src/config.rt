//! A configuration, and the one of a program alone. Definition: `specs/Configs.antt`.

ghost use Rattle.std.specs.Prelude.{◌≡◌, [], IfOk};
ghost use Rattle.path_text.specs.Path.{base_of};
ghost use Rattle.app_config.specs.Configs.{program_alone, quick_config_of};

use crate::names::names_or_default;
use crate::settings::default_setting;
use load_model::{List, Name, Setting};
use path_text::{Abs, NoMemory, Rel};
use std::alloc::Global;

/// What an AppDir is made of.
#[derive(Drop)]
pub struct Config {
    /// The program that the AppDir runs.
    pub main: Program,
    /// Programs that it takes along, in order.
    pub tools: List<Program>,
    /// Files that are copied as they are, in order.
    pub files: List<Data>,
    /// The desktop entry.
    pub desktop: Option<Abs>,
    /// The icon.
    pub icon: Option<Abs>,
    /// The libraries that every host is expected to have.
    pub names: List<Name>,
    /// What the loader is set to.
    pub setting: Setting,
}

/// A program, the name that it gets, and the libraries that it opens while it runs, in order.
#[derive(Drop)]
pub struct Program {
    pub path: Abs,
    pub name: Name,
    pub opens: List<Name>,
}

/// A file that is copied, and where in the AppDir it comes to lie.
#[derive(Drop)]
pub struct Data {
    pub from: Abs,
    pub to: Rel,
}

/// One program with nothing beside it, named by the last part of its path; the default
/// directories, no text for the tokens, and these names, or the default ones where none is given.
pub fn quick_config(alloc: Global, program: &Abs, names: &[Name]) -> Result<Config, NoMemory>
    ensures { IfOk result (λ c. c ≡ quick_config_of program.now names.now) }
{
    let main = program_alone(alloc, program)?;
    let names = names_or_default(alloc, names)?;
    let setting = default_setting(alloc)?;
    Ok(Config {
        main,
        tools: List::new(alloc),
        files: List::new(alloc),
        desktop: None,
        icon: None,
        names,
        setting,
    })
}

/// A program that opens nothing, named by the last part of its path.
fn program_alone(alloc: Global, path: &Abs) -> Result<Program, NoMemory>
    ensures { IfOk result (λ p. p ≡ program_alone path.now) }
{
    let name = Name::from_bytes(alloc, path.base())?;
    let path = path.copy(alloc)?;
    Ok(Program {
        path,
        name,
        opens: List::new(alloc),
    })
}
