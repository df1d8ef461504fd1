//! The main program, the names that hosts have, and what the loader is set to. Definitions:
//! `specs/Parts.antt`.

ghost use Rattle.answers.specs.Answers.{Answers};
ghost use Rattle.toml.specs.View.{table_view, view};
ghost use Rattle.config_text.specs.Faults.{said_of_config};
ghost use Rattle.config_text.specs.Kinds.{a_text};
ghost use Rattle.config_text.specs.Parts.{dirs_of, main_of, names_of, setting_read, token_of};
ghost use Rattle.config_text.specs.Tables.{if_any};

use crate::faults::ConfigFault;
use crate::kinds::read_text;
use crate::lists::{read_names, read_paths};
use crate::tables::{names_or_none, required_path};
use app_config::{Program, default_dirs, default_names, setting_of};
use load_model::{List, Name, Setting};
use path_text::Abs;
use std::alloc::Global;
use toml::{Table, Value};

/// The main program.
#[tactic(auto, unfolding(crate::specs::Parts::main_of))]
pub(crate) fn read_main(alloc: Global, top: &Table) -> Result<Program, ConfigFault>
    ensures { Answers said_of_config result (main_of (table_view top.now)) }
{
    let path = match required_path(alloc, top, "", "program") {
        Ok(path) => path,
        Err(fault) => return Err(fault),
    };
    let opens = match names_or_none(alloc, top, "", "opens") {
        Ok(opens) => opens,
        Err(fault) => return Err(fault),
    };
    let name = Name::from_bytes(alloc, path.base())?;
    Ok(Program { path, name, opens })
}

/// The names that hosts have, or the default ones.
pub(crate) fn read_host(alloc: Global, top: &Table) -> Result<List<Name>, ConfigFault>
    ensures { Answers said_of_config result (names_of (table_view top.now)) }
{
    match top.get("host") {
        Some(value) => read_names(alloc, "host", value),
        None => Ok(default_names(alloc)?),
    }
}

/// What the loader is set to.
#[tactic(auto, unfolding(crate::specs::Parts::setting_read))]
pub(crate) fn read_setting(alloc: Global, top: &Table) -> Result<Setting, ConfigFault>
    ensures { Answers said_of_config result (setting_read (table_view top.now)) }
{
    let dirs = match read_dirs(alloc, top) {
        Ok(dirs) => dirs,
        Err(fault) => return Err(fault),
    };
    let lib = match read_token(alloc, top, "lib") {
        Ok(lib) => lib,
        Err(fault) => return Err(fault),
    };
    let platform = match read_token(alloc, top, "platform") {
        Ok(platform) => platform,
        Err(fault) => return Err(fault),
    };
    Ok(Setting {
        lib,
        platform,
        ..setting_of(dirs)
    })
}

/// The listed directories, or the default ones.
fn read_dirs(alloc: Global, top: &Table) -> Result<List<Abs>, ConfigFault>
    ensures { Answers said_of_config result (dirs_of (table_view top.now)) }
{
    match top.get("directories") {
        Some(value) => read_paths(alloc, "directories", value),
        None => Ok(default_dirs(alloc)?),
    }
}

/// The text of a token, where there is one.
fn read_token(alloc: Global, top: &Table, name: &str) -> Result<Option<Name>, ConfigFault>
    ensures { Answers said_of_config result (token_of (table_view top.now) name.now) }
{
    match top.get(name) {
        Some(value) => token_at(alloc, name, value),
        None => Ok(None),
    }
}

fn token_at(alloc: Global, key: &str, value: &Value) -> Result<Option<Name>, ConfigFault>
    ensures { Answers said_of_config result (if_any a_text key.now (view value.now)) }
{
    match read_text(alloc, key, value) {
        Ok(text) => Ok(Some(text)),
        Err(fault) => Err(fault),
    }
}
