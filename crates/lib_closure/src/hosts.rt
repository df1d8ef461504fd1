//! What keeps a build from being split at its host libraries.
//!
//! Each kind is said in `specs/Clashes.antt`.

ghost use Rattle.std.specs.Prelude.{◌≡◌, IfOk, Some, filter, map, zip};
ghost use Rattle.std.specs.List.{find};
ghost use Rattle.std.specs.Option.{option_map};
ghost use Rattle.lib_closure.specs.Clashes.{has_run_path, host_alias, host_name_clash, host_needs_unlisted, host_run_path, hosts_of, is_alias, need_alias, need_unlisted, needs_bundled};
ghost use Rattle.lib_closure.specs.OfBuild.{of_build};
ghost use Rattle.lib_closure.specs.Objects.{key_held, own_needs, path_held};
ghost use Rattle.lib_closure.specs.Seen.{standing};
ghost use Rattle.lib_closure.specs.declared.stops.ClosureStop.TheVariants.{HostNameClash};

use crate::build::Build;
use crate::seen::Seen;
use crate::stops::ClosureStop;
use load_model::{Name, NoMemory};
use std::alloc::Global;
use text_sets::TextSet;

/// The host libraries, each at its first place.
pub fn hosts_of<'a>(alloc: Global, build: &Build<'a>) -> Result<Vec<Seen<'a>>, NoMemory>
    ensures { IfOk result (λ hosts. map standing hosts.items ≡ of_build hosts_of build.now) }
{
    let mut hosts = Vec::new(alloc);
    for seen in &build.firsts.seen {
        if build.is_host_library(seen) {
            match hosts.push(*seen) {
                Ok(()) => {}
                Err(_) => return Err(NoMemory),
            }
        }
    }
    Ok(hosts)
}

/// The first host library that has the key of one before it.
#[tactic(auto, unfolding(crate::specs::Clashes::host_name_clash))]
pub fn host_name_clash(
    alloc: Global,
    build: &Build<'_>,
    hosts: &[Seen<'_>],
) -> Result<Option<ClosureStop>, NoMemory>
    requires { map standing hosts.now ≡ of_build hosts_of build.now }
    ensures { IfOk result (λ found. found ≡ of_build host_name_clash build.now) }
{
    let mut keys = TextSet::new(alloc);
    for host in hosts {
        match keys.position(host.key()) {
            Some(place) => return Ok(Some(clash_of(alloc, &hosts[place], host)?)),
            None => keys.add(alloc, host.key())?,
        }
    }
    Ok(None)
}

/// The clash of a host library with one before it.
fn clash_of(alloc: Global, earlier: &Seen<'_>, host: &Seen<'_>) -> Result<ClosureStop, NoMemory>
    ensures { IfOk result (λ stop. stop ≡ HostNameClash (key_held (standing host.now))
        (path_held (standing earlier.now)) (path_held (standing host.now))) }
{
    let name = Name::from_bytes(alloc, host.key())?;
    let one = earlier.obj.path.copy(alloc)?;
    let other = host.obj.path.copy(alloc)?;
    Ok(ClosureStop::HostNameClash(name, one, other))
}

/// The first host library that has a run path.
#[tactic(auto, unfolding(crate::specs::Clashes::host_run_path))]
pub fn host_run_path(
    alloc: Global,
    build: &Build<'_>,
    hosts: &[Seen<'_>],
) -> Result<Option<ClosureStop>, NoMemory>
    requires { map standing hosts.now ≡ of_build hosts_of build.now }
    ensures { IfOk result (λ found. found ≡ of_build host_run_path build.now) }
{
    for host in hosts {
        if host.face.rpath.is_some() || host.face.runpath.is_some() {
            return Ok(Some(ClosureStop::HostRpath(host.obj.path.copy(alloc)?)));
        }
    }
    Ok(None)
}

/// The first need of a host library that goes to a bundled library.
#[tactic(auto, unfolding(crate::specs::Clashes::host_needs_unlisted))]
pub fn host_needs_unlisted(
    alloc: Global,
    build: &Build<'_>,
) -> Result<Option<ClosureStop>, NoMemory>
    ensures { IfOk result (λ found. found ≡ of_build host_needs_unlisted build.now) }
{
    for seen in &build.all {
        if let Some(stop) = need_unlisted(alloc, build, seen)? {
            return Ok(Some(stop));
        }
    }
    Ok(None)
}

/// The first need of an object that goes to a bundled library, where it is a host library.
#[tactic(auto, unfolding(crate::specs::Clashes::need_unlisted))]
fn need_unlisted<'a>(
    alloc: Global,
    build: &Build<'a>,
    seen: &Seen<'a>,
) -> Result<Option<ClosureStop>, NoMemory>
    ensures { IfOk result (λ found. found
        ≡ of_build need_unlisted build.now (standing seen.now)) }
{
    if !build.is_host_library(seen) {
        return Ok(None);
    }
    match bundled_need(build, seen, seen.face.needs.as_slice(), seen.targets()) {
        Some((need, _)) => {
            let path = build.path_of(seen).copy(alloc)?;
            Ok(Some(ClosureStop::HostNeedsUnlisted(path, need.copy(alloc)?)))
        }
        None => Ok(None),
    }
}

/// The first need of an object that goes to a bundled library, with its target.
fn bundled_need<'a>(
    build: &Build<'a>,
    seen: &Seen<'a>,
    needs: &'a [Name],
    targets: &'a [u32],
) -> Option<(&'a Name, &'a u32)>
    ensures { option_map (λ need. (need.0.now, need.1.now)) result
        ≡ find (of_build needs_bundled build.now (standing seen.now)) (zip needs.now targets.now) }
{
    needs
        .iter()
        .zip(targets)
        .find(|(_, target)| build.is_bundled_at(seen, **target))
}

/// The first need of a host library that is not the key of what it goes to.
#[tactic(auto, unfolding(crate::specs::Clashes::host_alias))]
pub fn host_alias(alloc: Global, build: &Build<'_>) -> Result<Option<ClosureStop>, NoMemory>
    ensures { IfOk result (λ found. found ≡ of_build host_alias build.now) }
{
    for seen in &build.all {
        if let Some(stop) = need_alias(alloc, build, seen)? {
            return Ok(Some(stop));
        }
    }
    Ok(None)
}

/// The first need of an object that is not the key of what it goes to, where it is a host library.
#[tactic(auto, unfolding(crate::specs::Clashes::need_alias))]
fn need_alias<'a>(
    alloc: Global,
    build: &Build<'a>,
    seen: &Seen<'a>,
) -> Result<Option<ClosureStop>, NoMemory>
    ensures { IfOk result (λ found. found
        ≡ of_build need_alias build.now (standing seen.now)) }
{
    if !build.is_host_library(seen) {
        return Ok(None);
    }
    match aliased_need(build, seen, seen.face.needs.as_slice(), seen.targets()) {
        Some((need, _)) => {
            let path = build.path_of(seen).copy(alloc)?;
            Ok(Some(ClosureStop::HostAlias(path, need.copy(alloc)?)))
        }
        None => Ok(None),
    }
}

/// The first need of an object that is not the key of what it goes to, with its target.
fn aliased_need<'a>(
    build: &Build<'a>,
    seen: &Seen<'a>,
    needs: &'a [Name],
    targets: &'a [u32],
) -> Option<(&'a Name, &'a u32)>
    ensures { option_map (λ need. (need.0.now, need.1.now)) result
        ≡ find (of_build is_alias build.now (standing seen.now)) (zip needs.now targets.now) }
{
    needs
        .iter()
        .zip(targets)
        .find(|(need, target)| is_alias(build, seen, *need, **target))
}

/// Whether a need is not the key of the object that it goes to.
fn is_alias<'a>(build: &Build<'a>, seen: &Seen<'a>, need: &Name, target: u32) -> bool
    ensures { result ≡ of_build is_alias build.now (standing seen.now) (need.now, target) }
{
    match seen.in_same_list(target) {
        Some(object) => build.first_place_of(&object).key() != need.as_bytes(),
        None => false,
    }
}
