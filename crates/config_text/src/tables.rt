//! Keys of a table. Definitions: `specs/Tables.antt`.

ghost use Rattle.std.specs.Prelude.{◌≡◌, ◌++◌, [], Some, bytes_eq, IfOk, option_copied, string_bytes, map};
ghost use Rattle.std.specs.List.{list_any};
ghost use Rattle.answers.specs.Answers.{Answers, Names, TellsBy};
ghost use Rattle.toml.specs.View.{table_view};
ghost use Rattle.config_text.specs.Faults.{said_of_config};
ghost use Rattle.config_text.specs.Kinds.{a_list, a_name, a_path};
ghost use Rattle.config_text.specs.declared.faults.ConfigFault.TheVariants.{UnknownKey};
ghost use Rattle.config_text.specs.Tables.{inside, least_unknown, optional, required, unknown_fault};

use crate::faults::{ConfigFault, missing_key, unknown_key};
use crate::kinds::read_path;
use crate::lists::read_names;
use load_model::{List, Name, NoMemory};
use path_text::Abs;
use std::alloc::Global;
use toml::Table;

/// Whether a table has none but these keys.
pub(crate) fn check_keys(
    alloc: Global,
    table: &Table,
    prefix: &str,
    known: &[&str],
) -> Result<(), ConfigFault>
    ensures { TellsBy said_of_config result (unknown_fault (map (λ k. k.now) known.now) prefix.now (table_view table.now)) }
{
    match first_unknown(table, known) {
        Some(name) => Err(unknown_in(alloc, prefix, name)),
        None => Ok(()),
    }
}

fn unknown_in(alloc: Global, prefix: &str, name: &str) -> ConfigFault
    ensures { Names (said_of_config result) (Some (UnknownKey (prefix.now ++ name.now))) }
{
    match key_in(alloc, prefix, name) {
        Ok(key) => unknown_key(alloc, key.as_str()),
        Err(_) => ConfigFault::NoMemory,
    }
}

/// The least key that is not known: keys of a table come in their order.
fn first_unknown<'a>(table: &'a Table, known: &[&str]) -> Option<&'a str>
    ensures { option_copied result ≡ least_unknown (map (λ k. k.now) known.now) (table_view table.now) }
{
    'look: for name in table.keys() {
        if !is_known(known, name.as_str()) {
            return Some(name.as_str());
        }
    }
    None
}

fn is_known(known: &[&str], name: &str) -> bool
    ensures { result ≡ list_any (λ k. bytes_eq name.now k.now) known.now }
{
    known.iter().any(|k| name == *k)
}

/// A path that has to be there.
pub(crate) fn required_path(
    alloc: Global,
    table: &Table,
    prefix: &str,
    name: &str,
) -> Result<Abs, ConfigFault>
    ensures { Answers said_of_config result (required a_path (table_view table.now) prefix.now name.now) }
{
    let text = key_in(alloc, prefix, name)?;
    let key = text.as_str();
    match table.get(name) {
        Some(value) => read_path(alloc, key, value),
        None => Err(missing_key(alloc, key)),
    }
}

/// Names that may be absent: none then.
pub(crate) fn names_or_none(
    alloc: Global,
    table: &Table,
    prefix: &str,
    name: &str,
) -> Result<List<Name>, ConfigFault>
    ensures { Answers said_of_config result (optional (a_list a_name) [] (table_view table.now) prefix.now name.now) }
{
    let text = key_in(alloc, prefix, name)?;
    let key = text.as_str();
    match table.get(name) {
        Some(value) => read_names(alloc, key, value),
        None => Ok(List::new(alloc)),
    }
}

/// The key of a value, as faults name it.
pub(crate) fn key_in(alloc: Global, prefix: &str, name: &str) -> Result<String, NoMemory>
    ensures { IfOk result (λ text. string_bytes text ≡ prefix.now ++ name.now) }
{
    Ok(format!(in alloc; "{prefix}{name}")?)
}

/// What stands before the keys of a table that is an element.
pub(crate) fn inside(alloc: Global, key: &str) -> Result<String, NoMemory>
    ensures { IfOk result (λ text. string_bytes text ≡ inside key.now) }
{
    Ok(format!(in alloc; "{key}.")?)
}
