//! The record of the runs of a build. Definition: `IsRecordOf` of `specs/Recording.antt`.

ghost use Rattle.std.specs.Prelude.{◌≡◌, ◌<◌, ℕ, List, Ok, All, IfOk, IsSome, OnOk, flat_map, fold, length, map};
ghost use Rattle.std.specs.BTreeSet.{insert_key};
ghost use Rattle.load_model.specs.Bindings.{IsBindOver, all_binds, offered_by};
ghost use Rattle.load_model.specs.Opening.{AreFew};
ghost use Rattle.load_model.specs.Runs.{IsRunOver};
ghost use Rattle.load_model.specs.declared.runs.Run.{Run};
ghost use Rattle.lib_closure.specs.Splits.{split_of};
ghost use Rattle.host_list.specs.Recording.{AreClosed, IsRecordOf, distinct_in_order, looks_of_run, program_interp, versions_of_run};
ghost use Rattle.host_record.specs.Canonical.{IsCanonical};
ghost use Rattle.host_record.specs.Orders.{full_look_cmp, version_cmp};

use crate::interps::interps_of;
use crate::libs::libs_of;
use crate::looks::add_binds;
use crate::places::Place;
use crate::versions::add_versions;
use host_record::{Look, RecVersion, Record};
use lib_closure::{HostLib, Split};
use load_model::{Bind, Face, List, NoMemory, Offers, Run};
use loader_replay::binds_of;
use std::alloc::Global;
use std::collections::BTreeSet;
use version_files::files_of_run;

/// What these runs, so split, ask of host libraries and find there.
///
/// `index` tells of each face what binds to it. Takes time in proportion to the references and the
/// objects of their scopes, and to what is recorded with its logarithm.
pub fn record_of<F: Offers>(
    alloc: Global,
    faces: &[Face],
    index: &[F],
    runs: &[Run],
    split: &Split,
) -> Result<Record, NoMemory>
    requires runs { All (IsRunOver faces.now) runs.now }
    requires some { 0 < length runs.now }
    requires few { AreFew faces.now }
    requires index { map F.offered index.now ≡ map offered_by faces.now }
    requires interps { All (λ (run : Run). IsSome (program_interp faces.now run)) runs.now }
    ensures record_is { IfOk result (IsRecordOf faces.now runs.now split.now) }
    // Where the names of host libraries are distinct and each of their needs is one of them.
    ensures canonical { AreClosed faces.now split.now.hosts → IfOk result IsCanonical }
    // So it is where these runs are split so, whatever the host list.
    ensures canonical_split { (names : List (List ℕ))
        → split_of faces.now runs.now names ≡ Ok split.now → IfOk result IsCanonical }
{
    made_record(alloc, faces, index, runs, split)
}

fn made_record<F: Offers>(
    alloc: Global,
    faces: &[Face],
    index: &[F],
    runs: &[Run],
    split: &Split,
) -> Result<Record, NoMemory>
    requires runs { All (IsRunOver faces.now) runs.now }
    requires some { 0 < length runs.now }
    requires few { AreFew faces.now }
    requires index { map F.offered index.now ≡ map offered_by faces.now }
    requires interps { All (λ (run : Run). IsSome (program_interp faces.now run)) runs.now }
    ensures { IfOk result (IsRecordOf faces.now runs.now split.now) }
{
    let hosts = split.hosts.as_slice();
    let interps = interps_of(alloc, faces, runs)?;
    let libs = libs_of(alloc, faces, hosts)?;
    let versions = versions_in(alloc, faces, runs, hosts)?;
    let looks = looks_in(alloc, faces, index, runs, hosts)?;
    let machine = runs[0].face_of(faces, 0).machine;
    Ok(Record {
        machine,
        interps,
        libs,
        versions,
        looks,
    })
}

/// The versions that are asked of host libraries, each once.
#[tactic(auto, unfolding(crate::specs::Recording::distinct_in_order))]
fn versions_in(
    alloc: Global,
    faces: &[Face],
    runs: &[Run],
    hosts: &[HostLib],
) -> Result<List<RecVersion>, NoMemory>
    requires { All (IsRunOver faces.now) runs.now }
    ensures { IfOk result (λ versions. versions
        ≡ distinct_in_order version_cmp (flat_map (versions_of_run faces.now hosts.now) runs.now)) }
{
    let mut versions = BTreeSet::new(alloc);
    'runs: for run in runs {
        add_run_versions(alloc, &mut versions, faces, run, hosts)?;
    }
    listed_versions(alloc, versions)
}

fn add_run_versions(
    alloc: Global,
    versions: &mut BTreeSet<RecVersion>,
    faces: &[Face],
    run: &Run,
    hosts: &[HostLib],
) -> Result<(), NoMemory>
    requires { IsRunOver faces.now run.now }
    ensures { OnOk result (versions.new.keys ≡ fold (insert_key version_cmp) versions.old.keys
        (versions_of_run faces.now hosts.now run.now)) }
{
    let place = Place::of(alloc, faces, run, hosts)?;
    let files = files_of_run(alloc, faces, run)?;
    add_versions(alloc, versions, &place, files.as_slice())
}

fn listed_versions(
    alloc: Global,
    versions: BTreeSet<RecVersion>,
) -> Result<List<RecVersion>, NoMemory>
    ensures { IfOk result (λ list. list ≡ versions.keys) }
{
    let mut list = List::new(alloc);
    'list: for version in versions {
        list.push(version)?;
    }
    Ok(list)
}

/// What references find in host libraries, each look once.
#[tactic(auto, unfolding(crate::specs::Recording::distinct_in_order))]
fn looks_in<F: Offers>(
    alloc: Global,
    faces: &[Face],
    index: &[F],
    runs: &[Run],
    hosts: &[HostLib],
) -> Result<List<Look>, NoMemory>
    requires runs { All (IsRunOver faces.now) runs.now }
    requires few { AreFew faces.now }
    requires index { map F.offered index.now ≡ map offered_by faces.now }
    ensures { IfOk result (λ looks. looks
        ≡ distinct_in_order full_look_cmp (flat_map (looks_of_run faces.now hosts.now) runs.now)) }
{
    let mut looks = BTreeSet::new(alloc);
    'runs: for run in runs {
        let binds = binds_of(alloc, faces, index, run)?;
        add_run_looks(alloc, &mut looks, faces, run, hosts, binds)?;
    }
    listed_looks(alloc, looks)
}

fn add_run_looks(
    alloc: Global,
    looks: &mut BTreeSet<Look>,
    faces: &[Face],
    run: &Run,
    hosts: &[HostLib],
    binds: List<Bind>,
) -> Result<(), NoMemory>
    requires run { IsRunOver faces.now run.now }
    requires binds { binds ≡ all_binds faces.now run.now }
    requires over { All (IsBindOver faces.now run.now) binds }
    ensures { OnOk result (looks.new.keys ≡ fold (insert_key full_look_cmp) looks.old.keys
        (looks_of_run faces.now hosts.now run.now)) }
{
    let place = Place::of(alloc, faces, run, hosts)?;
    add_binds(alloc, looks, &place, binds.as_slice())
}

fn listed_looks(alloc: Global, looks: BTreeSet<Look>) -> Result<List<Look>, NoMemory>
    ensures { IfOk result (λ list. list ≡ looks.keys) }
{
    let mut list = List::new(alloc);
    'list: for look in looks {
        list.push(look)?;
    }
    Ok(list)
}
