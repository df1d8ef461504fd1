//! Lists whose elements are of one kind. Definitions: `specs/Kinds.antt`.

ghost use Rattle.std.specs.Prelude.{◌≡◌, ◌++◌, IfOk, string_bytes};
ghost use Rattle.answers.specs.Answers.{Answers};
ghost use Rattle.toml.specs.View.{items_view, view};
ghost use Rattle.config_text.specs.Faults.{said_of_config};
ghost use Rattle.config_text.specs.Kinds.{a_list, a_name, a_path, element_key, elements};

use crate::faults::{ConfigFault, wrong_kind};
use crate::kinds::{read_name, read_path};
use load_model::{List, Name, NoMemory};
use path_text::Abs;
use std::alloc::Global;
use toml::Value;

/// Names that files can be given.
pub(crate) fn read_names(alloc: Global, key: &str, value: &Value) -> Result<List<Name>, ConfigFault>
    ensures { Answers said_of_config result (a_list a_name key.now (view value.now)) }
{
    match value.as_array() {
        Some(values) => names_of(alloc, key, values.as_slice()),
        None => Err(wrong_kind(alloc, key)),
    }
}

fn names_of(alloc: Global, key: &str, values: &[Value]) -> Result<List<Name>, ConfigFault>
    ensures { Answers said_of_config result (elements a_name key.now 0 (items_view values.now)) }
{
    let mut names = List::new(alloc);
    'read: for value in values {
        let name = match name_in(alloc, key, names.as_slice().len(), value) {
            Ok(name) => name,
            Err(fault) => return Err(fault),
        };
        names.push(name)?;
    }
    Ok(names)
}

fn name_in(alloc: Global, key: &str, index: usize, value: &Value) -> Result<Name, ConfigFault>
    ensures { Answers said_of_config result (a_name (element_key key.now index) (view value.now)) }
{
    match element_key(alloc, key, index) {
        Ok(key) => read_name(alloc, key.as_str(), value),
        Err(_) => Err(ConfigFault::NoMemory),
    }
}

/// Absolute paths.
pub(crate) fn read_paths(alloc: Global, key: &str, value: &Value) -> Result<List<Abs>, ConfigFault>
    ensures { Answers said_of_config result (a_list a_path key.now (view value.now)) }
{
    match value.as_array() {
        Some(values) => paths_of(alloc, key, values.as_slice()),
        None => Err(wrong_kind(alloc, key)),
    }
}

fn paths_of(alloc: Global, key: &str, values: &[Value]) -> Result<List<Abs>, ConfigFault>
    ensures { Answers said_of_config result (elements a_path key.now 0 (items_view values.now)) }
{
    let mut paths = List::new(alloc);
    'read: for value in values {
        let path = match path_in(alloc, key, paths.as_slice().len(), value) {
            Ok(path) => path,
            Err(fault) => return Err(fault),
        };
        paths.push(path)?;
    }
    Ok(paths)
}

fn path_in(alloc: Global, key: &str, index: usize, value: &Value) -> Result<Abs, ConfigFault>
    ensures { Answers said_of_config result (a_path (element_key key.now index) (view value.now)) }
{
    match element_key(alloc, key, index) {
        Ok(key) => read_path(alloc, key.as_str(), value),
        Err(_) => Err(ConfigFault::NoMemory),
    }
}

/// The key of an element of a list.
pub(crate) fn element_key(alloc: Global, key: &str, index: usize) -> Result<String, NoMemory>
    ensures { IfOk result (λ text. string_bytes text ≡ element_key key.now index) }
{
    Ok(format!(in alloc; "{key}.{index}")?)
}
