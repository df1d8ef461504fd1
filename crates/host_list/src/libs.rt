//! The host libraries with their needs, as `specs/Recording.antt` says.

ghost use Rattle.std.specs.Prelude.{◌≡◌, IfOk, map};
ghost use Rattle.host_list.specs.Recording.{recorded_lib};

use host_record::RecLib;
use lib_closure::HostLib;
use load_model::{Face, List, NoMemory};
use std::alloc::Global;

/// The host libraries, in their order.
pub(crate) fn libs_of(
    alloc: Global,
    faces: &[Face],
    hosts: &[HostLib],
) -> Result<List<RecLib>, NoMemory>
    ensures { IfOk result (λ libs. libs ≡ map (recorded_lib faces.now) hosts.now) }
{
    let mut libs = List::new(alloc);
    'hosts: for host in hosts {
        let lib = lib_of(alloc, faces, host)?;
        libs.push(lib)?;
    }
    Ok(libs)
}

fn lib_of(alloc: Global, faces: &[Face], host: &HostLib) -> Result<RecLib, NoMemory>
    ensures { IfOk result (λ lib. lib ≡ recorded_lib faces.now host.now) }
{
    let needs = match faces.get(host.face as usize) {
        Some(face) => face.needs.copy(alloc)?,
        None => List::new(alloc),
    };
    let name = host.name.copy(alloc)?;
    Ok(RecLib { name, needs })
}
