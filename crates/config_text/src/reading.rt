//! A text is read as a configuration. Definition: `specs/Reading.antt`.

ghost use Rattle.std.specs.Prelude.{◌≡◌, []};
ghost use Rattle.answers.specs.Answers.{Answers, TellsBy};
ghost use Rattle.toml.specs.View.{table_view};
ghost use Rattle.config_text.specs.Faults.{said_of_config};
ghost use Rattle.config_text.specs.Parts.{desktop_of, icon_of};
ghost use Rattle.config_text.specs.Reading.{assembled, carried_of, config_of, config_read, parts_of, shown_of, started_of, top_keys};
ghost use Rattle.config_text.specs.Tables.{unknown_fault};

use crate::carried::{read_files, read_tools};
use crate::faults::{ConfigFault, missing_key};
use crate::kinds::{read_desktop, read_icon};
use crate::started::{read_host, read_main, read_setting};
use crate::tables::check_keys;
use crate::targets::check_targets;
use app_config::{Config, Data, Program};
use load_model::{List, Name, Setting};
use path_text::Abs;
use std::alloc::Global;
use toml::Table;

/// The program that is started, and what its loader meets.
#[derive(Drop)]
pub(crate) struct Started {
    pub main: Program,
    pub names: List<Name>,
    pub setting: Setting,
}

/// What is taken along.
#[derive(Drop)]
pub(crate) struct Carried {
    pub tools: List<Program>,
    pub files: List<Data>,
}

/// What desktops show.
#[derive(Drop)]
pub(crate) struct Shown {
    pub desktop: Abs,
    pub icon: Abs,
}

/// Reads a configuration, or answers its first fault. NotToml comes where the bytes are not UTF-8
/// or no TOML document. Then come the top keys that are not known, of which the least is named, the
/// faults of each key in the order of `docs/FORMATS.md`, and targets that stand twice.
pub fn read_config(alloc: Global, bytes: &[u8]) -> Result<Config, ConfigFault>
    ensures { Answers said_of_config result (config_read bytes.now) }
{
    match toml::table_from_slice(alloc, bytes) {
        Ok(top) => config_of(alloc, &top),
        Err(error) => {
            if error.is_memory() {
                Err(ConfigFault::NoMemory)
            } else {
                Err(ConfigFault::NotToml)
            }
        }
    }
}

#[tactic(auto, unfolding(crate::specs::Reading::config_of))]
fn config_of(alloc: Global, top: &Table) -> Result<Config, ConfigFault>
    ensures { Answers said_of_config result (config_of (table_view top.now)) }
{
    match check_top(alloc, top) {
        Ok(()) => parts_of(alloc, top),
        Err(fault) => Err(fault),
    }
}

fn check_top(alloc: Global, top: &Table) -> Result<(), ConfigFault>
    ensures { TellsBy said_of_config result (unknown_fault top_keys [] (table_view top.now)) }
{
    let known = [
        "program",
        "opens",
        "host",
        "directories",
        "lib",
        "platform",
        "tools",
        "data",
        "desktop",
        "icon",
    ];
    check_keys(alloc, top, "", &known)
}

#[tactic(auto, unfolding(crate::specs::Reading::parts_of))]
fn parts_of(alloc: Global, top: &Table) -> Result<Config, ConfigFault>
    ensures { Answers said_of_config result (parts_of (table_view top.now)) }
{
    let started = match read_started(alloc, top) {
        Ok(started) => started,
        Err(fault) => return Err(fault),
    };
    let carried = match read_carried(alloc, top) {
        Ok(carried) => carried,
        Err(fault) => return Err(fault),
    };
    let shown = match read_shown(alloc, top) {
        Ok(shown) => shown,
        Err(fault) => return Err(fault),
    };
    match check_targets(alloc, carried.tools.as_slice(), carried.files.as_slice()) {
        Ok(()) => Ok(assembled(started, carried, shown)),
        Err(fault) => Err(fault),
    }
}

fn assembled(started: Started, carried: Carried, shown: Shown) -> Config
    ensures { result ≡ assembled started carried shown }
{
    Config {
        main: started.main,
        tools: carried.tools,
        files: carried.files,
        desktop: Some(shown.desktop),
        icon: Some(shown.icon),
        names: started.names,
        setting: started.setting,
    }
}

#[tactic(auto, unfolding(crate::specs::Reading::started_of))]
fn read_started(alloc: Global, top: &Table) -> Result<Started, ConfigFault>
    ensures { Answers said_of_config result (started_of (table_view top.now)) }
{
    let main = match read_main(alloc, top) {
        Ok(main) => main,
        Err(fault) => return Err(fault),
    };
    let names = match read_host(alloc, top) {
        Ok(names) => names,
        Err(fault) => return Err(fault),
    };
    let setting = match read_setting(alloc, top) {
        Ok(setting) => setting,
        Err(fault) => return Err(fault),
    };
    Ok(Started {
        main,
        names,
        setting,
    })
}

#[tactic(auto, unfolding(crate::specs::Reading::carried_of))]
fn read_carried(alloc: Global, top: &Table) -> Result<Carried, ConfigFault>
    ensures { Answers said_of_config result (carried_of (table_view top.now)) }
{
    let tools = match read_tools(alloc, top) {
        Ok(tools) => tools,
        Err(fault) => return Err(fault),
    };
    let files = match read_files(alloc, top) {
        Ok(files) => files,
        Err(fault) => return Err(fault),
    };
    Ok(Carried { tools, files })
}

#[tactic(auto, unfolding(crate::specs::Reading::shown_of))]
fn read_shown(alloc: Global, top: &Table) -> Result<Shown, ConfigFault>
    ensures { Answers said_of_config result (shown_of (table_view top.now)) }
{
    let desktop = match desktop_of(alloc, top) {
        Ok(desktop) => desktop,
        Err(fault) => return Err(fault),
    };
    let icon = match icon_of(alloc, top) {
        Ok(icon) => icon,
        Err(fault) => return Err(fault),
    };
    Ok(Shown { desktop, icon })
}

fn desktop_of(alloc: Global, top: &Table) -> Result<Abs, ConfigFault>
    ensures { Answers said_of_config result (desktop_of (table_view top.now)) }
{
    match top.get("desktop") {
        Some(value) => read_desktop(alloc, "desktop", value),
        None => Err(missing_key(alloc, "desktop")),
    }
}

fn icon_of(alloc: Global, top: &Table) -> Result<Abs, ConfigFault>
    ensures { Answers said_of_config result (icon_of (table_view top.now)) }
{
    match top.get("icon") {
        Some(value) => read_icon(alloc, "icon", value),
        None => Err(missing_key(alloc, "icon")),
    }
}
