//! What reading a configuration comes to, as lines.

use app_config::{Config, Data, Program, default_dirs, default_names};
use case_rows::Fault;
use config_text::{ConfigFault, read_config};
use load_model::{List, Name, escape_onto};
use path_text::Abs;
use std::alloc::Global;

/// Lines for each part of the configuration, or the fault.
pub fn said_lines(alloc: Global, bytes: &[u8]) -> Result<Vec<u8>, Fault> {
    let mut text = Vec::new(alloc);
    match read_config(alloc, bytes) {
        Ok(config) => push_config(alloc, &mut text, &config)?,
        Err(fault) => push_fault(&mut text, &fault)?,
    }
    Ok(text)
}

fn push_config(alloc: Global, text: &mut Vec<u8>, config: &Config) -> Result<(), Fault> {
    push_program(text, b"main", &config.main)?;
    push_hosts(alloc, text, &config.names)?;
    push_dirs(alloc, text, &config.setting.dirs)?;
    push_token(text, b"lib", &config.setting.lib)?;
    push_token(text, b"platform", &config.setting.platform)?;
    for tool in config.tools.as_slice() {
        push_program(text, b"tool", tool)?;
    }
    push_files(text, config.files.as_slice())?;
    push_file(text, b"desktop", &config.desktop)?;
    push_file(text, b"icon", &config.icon)
}

/// A program, its name and the names that it opens.
fn push_program(text: &mut Vec<u8>, title: &[u8], program: &Program) -> Result<(), Fault> {
    text.extend_from_slice(title)?;
    push_field(text, program.path.as_str().as_bytes())?;
    push_field(text, program.name.as_bytes())?;
    for name in program.opens.as_slice() {
        push_field(text, name.as_bytes())?;
    }
    Ok(text.push(b'\n')?)
}

/// The names that hosts have, where they are not the default ones.
fn push_hosts(alloc: Global, text: &mut Vec<u8>, names: &List<Name>) -> Result<(), Fault> {
    if are_same_names(names.as_slice(), default_names(alloc)?.as_slice()) {
        return Ok(());
    }
    text.extend_from_slice(b"host")?;
    for name in names.as_slice() {
        push_field(text, name.as_bytes())?;
    }
    Ok(text.push(b'\n')?)
}

fn are_same_names(names: &[Name], others: &[Name]) -> bool {
    names.len() == others.len()
        && names
            .iter()
            .zip(others)
            .all(|(name, other)| name.as_bytes() == other.as_bytes())
}

/// The listed directories, where they are not the default ones.
fn push_dirs(alloc: Global, text: &mut Vec<u8>, dirs: &List<Abs>) -> Result<(), Fault> {
    if are_same_paths(dirs.as_slice(), default_dirs(alloc)?.as_slice()) {
        return Ok(());
    }
    text.extend_from_slice(b"directories")?;
    for dir in dirs.as_slice() {
        push_field(text, dir.as_str().as_bytes())?;
    }
    Ok(text.push(b'\n')?)
}

fn are_same_paths(paths: &[Abs], others: &[Abs]) -> bool {
    paths.len() == others.len()
        && paths
            .iter()
            .zip(others)
            .all(|(path, other)| path.as_str() == other.as_str())
}

fn push_token(text: &mut Vec<u8>, title: &[u8], token: &Option<Name>) -> Result<(), Fault> {
    match token {
        Some(token) => push_line(text, title, token.as_bytes()),
        None => Ok(()),
    }
}

fn push_file(text: &mut Vec<u8>, title: &[u8], path: &Option<Abs>) -> Result<(), Fault> {
    match path {
        Some(path) => push_line(text, title, path.as_str().as_bytes()),
        None => Ok(()),
    }
}

fn push_files(text: &mut Vec<u8>, files: &[Data]) -> Result<(), Fault> {
    for file in files {
        text.extend_from_slice(b"data")?;
        push_field(text, file.from.as_str().as_bytes())?;
        push_field(text, file.to.as_str().as_bytes())?;
        text.push(b'\n')?;
    }
    Ok(())
}

fn push_fault(text: &mut Vec<u8>, fault: &ConfigFault) -> Result<(), Fault> {
    match fault {
        ConfigFault::NotToml => Ok(text.extend_from_slice(b"no TOML\n")?),
        ConfigFault::UnknownKey(key) => push_line(text, b"unknown", key.as_bytes()),
        ConfigFault::MissingKey(key) => push_line(text, b"lacks", key.as_bytes()),
        ConfigFault::WrongKind(key) => push_line(text, b"wrong kind", key.as_bytes()),
        ConfigFault::BadPath(key) => push_line(text, b"bad path", key.as_bytes()),
        ConfigFault::BadName { key, text: name } => push_bad_name(text, key, name),
        ConfigFault::TwoTargets(target) => push_line(text, b"twice", target.as_bytes()),
        ConfigFault::NoMemory => Err(Fault::NoMemory),
    }
}

fn push_bad_name(text: &mut Vec<u8>, key: &Name, name: &Name) -> Result<(), Fault> {
    text.extend_from_slice(b"bad name")?;
    push_field(text, key.as_bytes())?;
    push_field(text, name.as_bytes())?;
    Ok(text.push(b'\n')?)
}

/// A line of a word and a text.
fn push_line(text: &mut Vec<u8>, title: &[u8], field: &[u8]) -> Result<(), Fault> {
    text.extend_from_slice(title)?;
    push_field(text, field)?;
    Ok(text.push(b'\n')?)
}

/// Adds a space and a text, escaped.
fn push_field(text: &mut Vec<u8>, field: &[u8]) -> Result<(), Fault> {
    text.push(b' ')?;
    Ok(escape_onto(text, field)?)
}
