//! Tools and data files, which are tables in lists. Definitions: `specs/Parts.antt`.

ghost use Rattle.std.specs.Prelude.{codes, Some};
ghost use Rattle.answers.specs.Answers.{Answers};
ghost use Rattle.toml.specs.View.{items_view, table_view, view};
ghost use Rattle.config_text.specs.Faults.{said_of_config};
ghost use Rattle.config_text.specs.Kinds.{a_list, a_target, element_key, elements};
ghost use Rattle.config_text.specs.Parts.{file_keys, file_of, files_of, tool_keys, tool_name, tool_of, tools_of};
ghost use Rattle.config_text.specs.Tables.{a_table, of_table, required};

use crate::faults::{ConfigFault, missing_key, wrong_kind};
use crate::kinds::{file_name, read_name, read_target};
use crate::lists::element_key;
use crate::tables::{check_keys, inside, key_in, names_or_none, required_path};
use app_config::{Data, Program};
use load_model::{List, Name};
use path_text::{Abs, Rel};
use std::alloc::Global;
use toml::{Table, Value};

/// The tools.
pub(crate) fn read_tools(alloc: Global, top: &Table) -> Result<List<Program>, ConfigFault>
    ensures { Answers said_of_config result (tools_of (table_view top.now)) }
{
    match top.get("tools") {
        Some(value) => tools_at(alloc, value),
        None => Ok(List::new(alloc)),
    }
}

fn tools_at(alloc: Global, value: &Value) -> Result<List<Program>, ConfigFault>
    ensures { Answers said_of_config result (a_list (a_table tool_keys tool_of) (codes "tools") (view value.now)) }
{
    match value.as_array() {
        Some(values) => tools_in(alloc, values.as_slice()),
        None => Err(wrong_kind(alloc, "tools")),
    }
}

fn tools_in(alloc: Global, values: &[Value]) -> Result<List<Program>, ConfigFault>
    ensures { Answers said_of_config result (elements (a_table tool_keys tool_of) (codes "tools") 0 (items_view values.now)) }
{
    let mut tools = List::new(alloc);
    'read: for value in values {
        let tool = match tool_in(alloc, tools.as_slice().len(), value) {
            Ok(tool) => tool,
            Err(fault) => return Err(fault),
        };
        tools.push(tool)?;
    }
    Ok(tools)
}

fn tool_in(alloc: Global, index: usize, value: &Value) -> Result<Program, ConfigFault>
    ensures { Answers said_of_config result (a_table tool_keys tool_of (element_key (codes "tools") index) (view value.now)) }
{
    let text = element_key(alloc, "tools", index)?;
    let key = text.as_str();
    match value.as_table() {
        Some(table) => tool_inside(alloc, key, table),
        None => Err(wrong_kind(alloc, key)),
    }
}

fn tool_inside(alloc: Global, key: &str, table: &Table) -> Result<Program, ConfigFault>
    ensures { Answers said_of_config result (of_table tool_keys tool_of key.now (Some (table_view table.now))) }
{
    let text = inside(alloc, key)?;
    let prefix = text.as_str();
    match check_keys(alloc, table, prefix, &["program", "name", "opens"]) {
        Ok(()) => tool_of(alloc, prefix, table),
        Err(fault) => Err(fault),
    }
}

#[tactic(auto, unfolding(crate::specs::Parts::tool_of))]
fn tool_of(alloc: Global, prefix: &str, table: &Table) -> Result<Program, ConfigFault>
    ensures { Answers said_of_config result (tool_of prefix.now (table_view table.now)) }
{
    let path = match required_path(alloc, table, prefix, "program") {
        Ok(path) => path,
        Err(fault) => return Err(fault),
    };
    let name = match tool_name(alloc, prefix, table, &path) {
        Ok(name) => name,
        Err(fault) => return Err(fault),
    };
    let opens = match names_or_none(alloc, table, prefix, "opens") {
        Ok(opens) => opens,
        Err(fault) => return Err(fault),
    };
    Ok(Program { path, name, opens })
}

/// The name that is given, or the last part of the path.
fn tool_name(alloc: Global, prefix: &str, table: &Table, path: &Abs) -> Result<Name, ConfigFault>
    ensures { Answers said_of_config result (tool_name prefix.now (table_view table.now) path.now) }
{
    let text = key_in(alloc, prefix, "name")?;
    let key = text.as_str();
    match table.get("name") {
        Some(value) => read_name(alloc, key, value),
        None => file_name(alloc, key, path.base()),
    }
}

/// The data files.
pub(crate) fn read_files(alloc: Global, top: &Table) -> Result<List<Data>, ConfigFault>
    ensures { Answers said_of_config result (files_of (table_view top.now)) }
{
    match top.get("data") {
        Some(value) => files_at(alloc, value),
        None => Ok(List::new(alloc)),
    }
}

fn files_at(alloc: Global, value: &Value) -> Result<List<Data>, ConfigFault>
    ensures { Answers said_of_config result (a_list (a_table file_keys file_of) (codes "data") (view value.now)) }
{
    match value.as_array() {
        Some(values) => files_in(alloc, values.as_slice()),
        None => Err(wrong_kind(alloc, "data")),
    }
}

fn files_in(alloc: Global, values: &[Value]) -> Result<List<Data>, ConfigFault>
    ensures { Answers said_of_config result (elements (a_table file_keys file_of) (codes "data") 0 (items_view values.now)) }
{
    let mut files = List::new(alloc);
    'read: for value in values {
        let file = match file_in(alloc, files.as_slice().len(), value) {
            Ok(file) => file,
            Err(fault) => return Err(fault),
        };
        files.push(file)?;
    }
    Ok(files)
}

fn file_in(alloc: Global, index: usize, value: &Value) -> Result<Data, ConfigFault>
    ensures { Answers said_of_config result (a_table file_keys file_of (element_key (codes "data") index) (view value.now)) }
{
    let text = element_key(alloc, "data", index)?;
    let key = text.as_str();
    match value.as_table() {
        Some(table) => file_inside(alloc, key, table),
        None => Err(wrong_kind(alloc, key)),
    }
}

fn file_inside(alloc: Global, key: &str, table: &Table) -> Result<Data, ConfigFault>
    ensures { Answers said_of_config result (of_table file_keys file_of key.now (Some (table_view table.now))) }
{
    let text = inside(alloc, key)?;
    let prefix = text.as_str();
    match check_keys(alloc, table, prefix, &["from", "to"]) {
        Ok(()) => file_of(alloc, prefix, table),
        Err(fault) => Err(fault),
    }
}

#[tactic(auto, unfolding(crate::specs::Parts::file_of))]
fn file_of(alloc: Global, prefix: &str, table: &Table) -> Result<Data, ConfigFault>
    ensures { Answers said_of_config result (file_of prefix.now (table_view table.now)) }
{
    let from = match required_path(alloc, table, prefix, "from") {
        Ok(from) => from,
        Err(fault) => return Err(fault),
    };
    let to = match required_target(alloc, table, prefix, "to") {
        Ok(to) => to,
        Err(fault) => return Err(fault),
    };
    Ok(Data { from, to })
}

/// A path in the AppDir that has to be there.
fn required_target(
    alloc: Global,
    table: &Table,
    prefix: &str,
    name: &str,
) -> Result<Rel, ConfigFault>
    ensures { Answers said_of_config result (required a_target (table_view table.now) prefix.now name.now) }
{
    let text = key_in(alloc, prefix, name)?;
    let key = text.as_str();
    match table.get(name) {
        Some(value) => read_target(alloc, key, value),
        None => Err(missing_key(alloc, key)),
    }
}
