//! Which libraries a library reaches by recorded needs.

ghost use Rattle.std.specs.Prelude.{◌≡◌, IfOk, OnOk, true, fold, map};
ghost use Rattle.std.specs.Str.{bytes_eq};
ghost use Rattle.indexmap.specs.IndexSet.{insert_key};
ghost use Rattle.host_record.specs.Said.{is_declared, lib_names, needs_declared};
ghost use Rattle.host_meeting.specs.Reaching.{AreReached};

use crate::lib_places::LibPlaces;
use load_model::{Name, NoMemory};
use std::alloc::Global;
use text_sets::TextSet;

/// The names that a library reaches, its own the first.
///
/// Goes once through the needs of each library that is reached, so at most through all needs of the
/// record, with a look-up for each.
pub fn reached_from<'a>(
    alloc: Global,
    libs: &LibPlaces<'a>,
    from: &'a Name,
) -> Result<TextSet, NoMemory>
    requires declared { needs_declared libs.now.rec.now.libs ≡ true }
    requires from { is_declared (lib_names libs.now.rec.now.libs) from.now ≡ true }
    ensures { IfOk result (λ reached. AreReached libs.now.rec.now.libs from.now reached) }
{
    let mut reached = TextSet::new(alloc);
    let mut names = Vec::new(alloc);
    reach(alloc, &mut reached, &mut names, from)?;
    let mut next = 0;
    'names: while next < names.len() {
        let needs = libs.needs_of(names[next]);
        reach_all(alloc, &mut reached, &mut names, needs)?;
        next += 1;
    }
    Ok(reached)
}

/// Adds names, but for those that are reached already.
fn reach_all<'a>(
    alloc: Global,
    reached: &mut TextSet,
    names: &mut Vec<&'a Name>,
    needs: &'a [Name],
) -> Result<(), NoMemory>
    requires { reached.old ≡ map (λ name. name.now) names.old.items }
    ensures reached { OnOk result (reached.new ≡ map (λ name. name.now) names.new.items) }
    ensures names { OnOk result (map (λ name. name.now) names.new.items
        ≡ fold (insert_key bytes_eq) (map (λ name. name.now) names.old.items) needs.now) }
{
    for need in needs {
        reach(alloc, reached, names, need)?;
    }
    Ok(())
}

/// Adds a name, unless it is reached already.
fn reach<'a>(
    alloc: Global,
    reached: &mut TextSet,
    names: &mut Vec<&'a Name>,
    name: &'a Name,
) -> Result<(), NoMemory>
    requires { reached.old ≡ map (λ name. name.now) names.old.items }
    ensures reached { OnOk result (reached.new ≡ map (λ name. name.now) names.new.items) }
    ensures names { OnOk result (map (λ name. name.now) names.new.items
        ≡ insert_key bytes_eq (map (λ name. name.now) names.old.items) name.now) }
{
    if reached.contains(name.as_bytes()) {
        return Ok(());
    }
    reached.add(alloc, name.as_bytes())?;
    match names.push(name) {
        Ok(()) => Ok(()),
        Err(_) => Err(NoMemory),
    }
}
