//! The parts of a split, from the objects of a build, as `specs/Splits.antt` says.

ghost use Rattle.std.specs.Prelude.{◌≡◌, IfOk, filter, map};
ghost use Rattle.lib_closure.specs.Clashes.{hosts_of};
ghost use Rattle.lib_closure.specs.OfBuild.{of_build};
ghost use Rattle.lib_closure.specs.Seen.{standing};
ghost use Rattle.lib_closure.specs.Splits.{bundled_of, host_lib_of, member_of, parts_of_build};

use crate::build::Build;
use crate::seen::Seen;
use crate::splits::{HostLib, Member, Split};
use load_model::{List, Name, NoMemory};
use std::alloc::Global;

/// The split of a build, whose host libraries are these.
#[tactic(auto, unfolding(crate::specs::Splits::parts_of_build))]
pub fn parts_of_build(
    alloc: Global,
    build: &Build<'_>,
    hosts: &[Seen<'_>],
) -> Result<Split, NoMemory>
    requires { map standing hosts.now ≡ of_build hosts_of build.now }
    ensures { IfOk result (λ split. split ≡ of_build parts_of_build build.now) }
{
    let programs = members_of(alloc, build.programs.as_slice())?;
    let libs = bundled_of(alloc, build)?;
    let hosts = host_libs_of(alloc, hosts)?;
    Ok(Split {
        programs,
        libs,
        hosts,
    })
}

/// These objects, as members.
fn members_of(alloc: Global, all: &[Seen<'_>]) -> Result<List<Member>, NoMemory>
    ensures { IfOk result (λ members. members ≡ map member_of (map standing all.now)) }
{
    let mut members = List::new(alloc);
    for seen in all {
        members.push(member_of(alloc, seen)?)?;
    }
    Ok(members)
}

/// The bundled libraries, each at its first place.
fn bundled_of(alloc: Global, build: &Build<'_>) -> Result<List<Member>, NoMemory>
    ensures { IfOk result (λ libs. libs ≡ map member_of (of_build bundled_of build.now)) }
{
    let mut libs = List::new(alloc);
    for seen in &build.firsts.seen {
        if build.is_bundled(seen) {
            libs.push(member_of(alloc, seen)?)?;
        }
    }
    Ok(libs)
}

/// An object as a member.
fn member_of(alloc: Global, seen: &Seen<'_>) -> Result<Member, NoMemory>
    ensures { IfOk result (λ member. member ≡ member_of (standing seen.now)) }
{
    Ok(Member {
        id: seen.obj.id.copy(alloc)?,
        path: seen.obj.path.copy(alloc)?,
        face: seen.obj.face,
    })
}

/// These objects, as host libraries.
fn host_libs_of(alloc: Global, all: &[Seen<'_>]) -> Result<List<HostLib>, NoMemory>
    ensures { IfOk result (λ hosts. hosts ≡ map host_lib_of (map standing all.now)) }
{
    let mut hosts = List::new(alloc);
    for seen in all {
        hosts.push(host_lib_of(alloc, seen)?)?;
    }
    Ok(hosts)
}

/// An object as a host library.
fn host_lib_of(alloc: Global, seen: &Seen<'_>) -> Result<HostLib, NoMemory>
    ensures { IfOk result (λ host. host ≡ host_lib_of (standing seen.now)) }
{
    Ok(HostLib {
        name: Name::from_bytes(alloc, seen.key())?,
        id: seen.obj.id.copy(alloc)?,
        path: seen.obj.path.copy(alloc)?,
        face: seen.obj.face,
    })
}
