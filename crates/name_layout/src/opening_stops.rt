//! What keeps a library from the name under which it is opened.
//!
//! Each stop is said in `specs/Openings.antt`.

ghost use Rattle.std.specs.Prelude.{◌≡◌, IfOk, Some, map, not};
ghost use Rattle.std.specs.Option.{option_and_then, option_map};
ghost use Rattle.std.specs.Str.{bytes_eq};
ghost use Rattle.answers.specs.First.{some_where};
ghost use Rattle.name_layout.specs.Opened.{as_opening};
ghost use Rattle.name_layout.specs.Openings.{bundled_stop, first_of_name, first_of_root, first_opening_stop, lib_with, name_given, opening_stop, renamed};
ghost use Rattle.name_layout.specs.declared.stops.NameStop.TheVariants.{OpenAlias};

use crate::opened::Opened;
use crate::opened_names::OpenedNames;
use crate::stops::NameStop;
use lib_closure::{HostLib, Member};
use load_model::NoMemory;
use std::alloc::Global;

/// What is refused first of the opened names.
#[tactic(auto, unfolding(crate::specs::Openings::first_opening_stop))]
pub fn first_opening_stop(
    alloc: Global,
    names: &OpenedNames<'_>,
) -> Result<Option<NameStop>, NoMemory>
    ensures { IfOk result (λ found. found ≡ first_opening_stop names.now.libs.split.now
        names.now.names.now names.now.runs.now) }
{
    for opened in &names.all {
        if let Some(stop) = opening_stop(alloc, names, opened)? {
            return Ok(Some(stop));
        }
    }
    Ok(None)
}

/// What is refused of an opened name.
fn opening_stop<'a>(
    alloc: Global,
    names: &OpenedNames<'a>,
    opened: &Opened<'a>,
) -> Result<Option<NameStop>, NoMemory>
    ensures { IfOk result (λ found. found ≡ opening_stop names.now.libs.split.now
        names.now.names.now names.now.runs.now (as_opening opened.now)) }
{
    if let Some(host) = names.libs.host_with(opened.root.as_bytes()) {
        if let Some(stop) = opened_alias(alloc, opened, host)? {
            return Ok(Some(stop));
        }
    }
    match names.libs.lib_with(opened.root.as_bytes()) {
        Some(lib) => bundled_stop(alloc, names, opened, lib),
        None => Ok(None),
    }
}

/// A host library is opened under a name that is not its key.
fn opened_alias(
    alloc: Global,
    opened: &Opened<'_>,
    host: &HostLib,
) -> Result<Option<NameStop>, NoMemory>
    ensures { IfOk result (λ found. found ≡ some_where
        (not (bytes_eq opened.now.name.now host.now.name))
        (OpenAlias opened.now.name.now host.now.name)) }
{
    if opened.name.as_bytes() == host.name.as_bytes() {
        return Ok(None);
    }
    let name = opened.name.copy(alloc)?;
    Ok(Some(NameStop::OpenAlias(name, host.name.copy(alloc)?)))
}

/// What is refused of a name under which a bundled library is opened.
fn bundled_stop<'a>(
    alloc: Global,
    names: &OpenedNames<'a>,
    opened: &Opened<'a>,
    lib: &Member,
) -> Result<Option<NameStop>, NoMemory>
    ensures { IfOk result (λ found. found ≡ bundled_stop names.now.libs.split.now
        names.now.names.now names.now.runs.now (as_opening opened.now) (Some lib.now)) }
{
    if names.listed.contains(opened.name.as_bytes()) {
        return Ok(Some(NameStop::OpenNameOnHostList(opened.name.copy(alloc)?)));
    }
    if let Some(stop) = renamed(alloc, names, opened, lib)? {
        return Ok(Some(stop));
    }
    name_given(alloc, names, opened, lib)
}

/// It was opened first under another name.
fn renamed<'a>(
    alloc: Global,
    names: &OpenedNames<'a>,
    opened: &Opened<'a>,
    lib: &Member,
) -> Result<Option<NameStop>, NoMemory>
    ensures { IfOk result (λ found. found ≡ renamed names.now.libs.split.now
        names.now.names.now names.now.runs.now (as_opening opened.now) lib.now
        (first_of_root names.now.libs.split.now names.now.names.now names.now.runs.now
        (as_opening opened.now))) }
{
    let Some(first) = names.first_of_root(opened.root.as_bytes()) else {
        return Ok(None);
    };
    if opened.name.as_bytes() == first.name.as_bytes() {
        return Ok(None);
    }
    let path = lib.path.copy(alloc)?;
    let name = first.name.copy(alloc)?;
    Ok(Some(NameStop::TwoOpenNames(path, name, opened.name.copy(alloc)?)))
}

/// Another one was opened first under the name.
fn name_given<'a>(
    alloc: Global,
    names: &OpenedNames<'a>,
    opened: &Opened<'a>,
    lib: &Member,
) -> Result<Option<NameStop>, NoMemory>
    ensures { IfOk result (λ found. found ≡ name_given names.now.libs.split.now
        names.now.names.now names.now.runs.now (as_opening opened.now) lib.now
        (option_and_then (λ e. lib_with names.now.libs.split.now e.root)
        (first_of_name names.now.libs.split.now names.now.names.now names.now.runs.now
        (as_opening opened.now)))) }
{
    let Some(other) = first_with_name(names, opened) else {
        return Ok(None);
    };
    if lib.id.as_bytes() == other.id.as_bytes() {
        return Ok(None);
    }
    let name = opened.name.copy(alloc)?;
    let path = other.path.copy(alloc)?;
    Ok(Some(NameStop::NameClash(name, path, lib.path.copy(alloc)?)))
}

/// The bundled library that was opened first under this name.
fn first_with_name<'a>(names: &OpenedNames<'a>, opened: &Opened<'a>) -> Option<&'a Member>
    ensures { option_map (λ lib. lib.now) result
        ≡ option_and_then (λ e. lib_with names.now.libs.split.now e.root)
        (first_of_name names.now.libs.split.now names.now.names.now names.now.runs.now
        (as_opening opened.now)) }
{
    match names.first_of_name(opened.name.as_bytes()) {
        Some(first) => names.libs.lib_with(first.root.as_bytes()),
        None => None,
    }
}
