//! The split of all objects of a build.
//!
//! The split is said in `specs/Splits.antt`, what keeps from it in `specs/Clashes.antt`.

ghost use Rattle.std.specs.Prelude.{◌≡◌, All, IfOk, map};
ghost use Rattle.answers.specs.Answers.{Answers};
ghost use Rattle.answers.specs.First.{first_some};
ghost use Rattle.load_model.specs.Runs.{IsRunOver};
ghost use Rattle.lib_closure.specs.Clashes.{hosts_of, kinds_in_order};
ghost use Rattle.lib_closure.specs.OfBuild.{of_build};
ghost use Rattle.lib_closure.specs.Seen.{standing};
ghost use Rattle.lib_closure.specs.Splits.{said_of_stop, split_of};

use crate::build::Build;
use crate::bundled::split_need;
use crate::hosts::{host_alias, host_name_clash, host_needs_unlisted, host_run_path, hosts_of};
use crate::lists::lists_of;
use crate::parts::parts_of_build;
use crate::programs::{interpreter_unlisted, no_interpreter, program_needed};
use crate::seen::Seen;
use crate::splits::Split;
use crate::stops::ClosureStop;
use load_model::{Face, Name, NoMemory, Run};
use std::alloc::Global;

/// The programs, bundled libraries and host libraries of these runs, by the names of the host list;
/// or the first clash, kind by kind.
///
/// Goes through objects, needs and asks a fixed number of times.
pub fn split(
    alloc: Global,
    faces: &[Face],
    runs: &[Run],
    names: &[Name],
) -> Result<Split, ClosureStop>
    requires runs { All (IsRunOver faces.now) runs.now }
    ensures { Answers said_of_stop result (split_of faces.now runs.now names.now) }
{
    match parts_or_clash(alloc, faces, runs, names) {
        Ok(Ok(split)) => Ok(split),
        Ok(Err(stop)) => Err(stop),
        Err(_) => Err(ClosureStop::NoMemory),
    }
}

/// The split of these runs, or the first clash.
#[tactic(auto, unfolding(crate::specs::Splits::split_of))]
fn parts_or_clash(
    alloc: Global,
    faces: &[Face],
    runs: &[Run],
    names: &[Name],
) -> Result<Result<Split, ClosureStop>, NoMemory>
    requires runs { All (IsRunOver faces.now) runs.now }
    ensures { IfOk result (λ answer. answer ≡ split_of faces.now runs.now names.now) }
{
    let lists = lists_of(alloc, faces, runs)?;
    let build = Build::of(alloc, faces, runs, names, lists.as_slice())?;
    let hosts = hosts_of(alloc, &build)?;
    match first_clash(alloc, &build, hosts.as_slice())? {
        Some(stop) => Ok(Err(stop)),
        None => Ok(Ok(parts_of_build(alloc, &build, hosts.as_slice())?)),
    }
}

/// The first clash of a build, whose host libraries are these.
fn first_clash(
    alloc: Global,
    build: &Build<'_>,
    hosts: &[Seen<'_>],
) -> Result<Option<ClosureStop>, NoMemory>
    requires { map standing hosts.now ≡ of_build hosts_of build.now }
    ensures { IfOk result (λ found. found ≡ first_some (of_build kinds_in_order build.now)) }
{
    if let Some(stop) = no_interpreter(alloc, build)? {
        return Ok(Some(stop));
    }
    if let Some(stop) = interpreter_unlisted(alloc, build)? {
        return Ok(Some(stop));
    }
    if let Some(stop) = program_needed(alloc, build)? {
        return Ok(Some(stop));
    }
    if let Some(stop) = host_name_clash(alloc, build, hosts)? {
        return Ok(Some(stop));
    }
    if let Some(stop) = host_run_path(alloc, build, hosts)? {
        return Ok(Some(stop));
    }
    if let Some(stop) = host_needs_unlisted(alloc, build)? {
        return Ok(Some(stop));
    }
    if let Some(stop) = host_alias(alloc, build)? {
        return Ok(Some(stop));
    }
    split_need(alloc, build)
}
