//! Values of each kind: texts, names, paths. Definitions: `specs/Kinds.antt`.

ghost use Rattle.std.specs.Prelude.{◌≡◌, ◌&&◌, not, is_some, IfOk};
ghost use Rattle.std.specs.List.{list_any};
ghost use Rattle.std.specs.Str.{is_utf8};
ghost use Rattle.answers.specs.Answers.{Answers};
ghost use Rattle.answers.specs.First.{some_where, value_unless};
ghost use Rattle.path_text.specs.Path.{base_of, path_of};
ghost use Rattle.path_text.specs.Target.{target_of, target_fault};
ghost use Rattle.toml.specs.View.{view};
ghost use Rattle.config_text.specs.Faults.{or_else, said_of_config};
ghost use Rattle.config_text.specs.Kinds.{a_file, a_name, a_path, a_target, a_text, desktop_endings, icon_endings, is_ended, is_file_of, is_name_text, named};
ghost use Rattle.config_text.specs.declared.faults.ConfigFault.TheVariants.{BadPath};

use crate::faults::{ConfigFault, bad_name, bad_path, wrong_kind};
use load_model::{Name, NoMemory};
use path_text::{Abs, PathFault, Rel, RelFault, is_file_name};
use std::alloc::Global;
use toml::Value;

/// A text of any kind.
pub(crate) fn read_text(alloc: Global, key: &str, value: &Value) -> Result<Name, ConfigFault>
    ensures { Answers said_of_config result (a_text key.now (view value.now)) }
{
    match value.as_str() {
        Some(text) => Ok(Name::from_bytes(alloc, text.as_bytes())?),
        None => Err(wrong_kind(alloc, key)),
    }
}

/// A name that a file can be given.
pub(crate) fn read_name(alloc: Global, key: &str, value: &Value) -> Result<Name, ConfigFault>
    ensures { Answers said_of_config result (a_name key.now (view value.now)) }
{
    match value.as_str() {
        Some(text) => file_name(alloc, key, text.as_bytes()),
        None => Err(wrong_kind(alloc, key)),
    }
}

/// This text, where it is a name that a file can be given.
pub(crate) fn file_name(alloc: Global, key: &str, text: &[u8]) -> Result<Name, ConfigFault>
    ensures { Answers said_of_config result (named key.now text.now) }
{
    if is_name_text(text) {
        Ok(Name::from_bytes(alloc, text)?)
    } else {
        Err(bad_name(alloc, key, text))
    }
}

fn is_name_text(text: &[u8]) -> bool
    ensures { result ≡ is_name_text text.now }
{
    is_file_name(text) && is_text(text)
}

fn is_text(bytes: &[u8]) -> bool
    ensures { result ≡ is_utf8 bytes.now }
{
    match str::from_utf8(bytes) {
        Ok(_) => true,
        Err(_) => false,
    }
}

/// An absolute path, in normal form.
pub(crate) fn read_path(alloc: Global, key: &str, value: &Value) -> Result<Abs, ConfigFault>
    ensures { Answers said_of_config result (a_path key.now (view value.now)) }
{
    match value.as_str() {
        Some(text) => path_of(alloc, key, text),
        None => Err(wrong_kind(alloc, key)),
    }
}

fn path_of(alloc: Global, key: &str, text: &str) -> Result<Abs, ConfigFault>
    ensures { Answers said_of_config result (or_else (path_of text.now) (BadPath key.now)) }
{
    match Abs::read(alloc, text.as_bytes()) {
        Ok(path) => Ok(path),
        Err(PathFault::NoMemory) => Err(ConfigFault::NoMemory),
        Err(_) => Err(bad_path(alloc, key)),
    }
}

/// The path of an item in a directory.
pub(crate) fn read_target(alloc: Global, key: &str, value: &Value) -> Result<Rel, ConfigFault>
    ensures { Answers said_of_config result (a_target key.now (view value.now)) }
{
    match value.as_str() {
        Some(text) => target_of(alloc, key, text),
        None => Err(wrong_kind(alloc, key)),
    }
}

fn target_of(alloc: Global, key: &str, text: &str) -> Result<Rel, ConfigFault>
    ensures { Answers said_of_config result (or_else (target_of text.now) (BadPath key.now)) }
{
    match Rel::read(alloc, text.as_bytes()) {
        Ok(target) => Ok(target),
        Err(RelFault::NoMemory) => Err(ConfigFault::NoMemory),
        Err(_) => Err(bad_path(alloc, key)),
    }
}

/// The path of a desktop entry file.
pub(crate) fn read_desktop(alloc: Global, key: &str, value: &Value) -> Result<Abs, ConfigFault>
    ensures { Answers said_of_config result (a_file desktop_endings key.now (view value.now)) }
{
    let path = match read_path(alloc, key, value) {
        Ok(path) => path,
        Err(fault) => return Err(fault),
    };
    let is_ended = is_desktop_name(path.base());
    item_path(alloc, key, path, is_ended)
}

/// The path of a picture.
pub(crate) fn read_icon(alloc: Global, key: &str, value: &Value) -> Result<Abs, ConfigFault>
    ensures { Answers said_of_config result (a_file icon_endings key.now (view value.now)) }
{
    let path = match read_path(alloc, key, value) {
        Ok(path) => path,
        Err(fault) => return Err(fault),
    };
    let is_ended = is_icon_name(path.base());
    item_path(alloc, key, path, is_ended)
}

/// This path, where its last part has an ending that is wanted and can lie in a directory.
fn item_path(alloc: Global, key: &str, path: Abs, is_ended: bool) -> Result<Abs, ConfigFault>
    ensures { Answers said_of_config result (value_unless (some_where (not (is_ended && not (is_some (target_fault (base_of path))))) (BadPath key.now)) path) }
{
    match is_item_name(alloc, path.base()) {
        Ok(is_item) if is_ended && is_item => Ok(path),
        Ok(_) => Err(bad_path(alloc, key)),
        Err(_) => Err(ConfigFault::NoMemory),
    }
}

/// Whether an item of a directory can have this name.
fn is_item_name(alloc: Global, name: &[u8]) -> Result<bool, NoMemory>
    ensures { IfOk result (λ fits. fits ≡ not (is_some (target_fault name.now))) }
{
    match Rel::read(alloc, name) {
        Ok(_) => Ok(true),
        Err(RelFault::NoMemory) => Err(NoMemory),
        Err(_) => Ok(false),
    }
}

fn is_desktop_name(name: &[u8]) -> bool
    ensures { result ≡ list_any (is_ended name.now) desktop_endings }
{
    is_ended(name, b".desktop")
}

fn is_icon_name(name: &[u8]) -> bool
    ensures { result ≡ list_any (is_ended name.now) icon_endings }
{
    is_ended(name, b".png") || is_ended(name, b".svg") || is_ended(name, b".xpm")
}

/// Whether a name ends so, with something before its ending.
fn is_ended(name: &[u8], ending: &[u8]) -> bool
    ensures { result ≡ is_ended name.now ending.now }
{
    ending.len() < name.len() && name.ends_with(ending)
}
