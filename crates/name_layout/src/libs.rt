//! The host and bundled libraries of a split, found by their identities.
//!
//! Said in `specs/Openings.antt`.

ghost use Rattle.std.specs.Prelude.{◌≡◌, IfOk, map};
ghost use Rattle.std.specs.Option.{option_map};
ghost use Rattle.name_layout.specs.Openings.{host_with, lib_with};
ghost use Rattle.name_layout.specs.Sets.{HasPlaces};

use crate::places::Places;
use lib_closure::{HostLib, Member, Split};
use load_model::NoMemory;
use std::alloc::Global;

/// The host and bundled libraries of a split, found by their identities.
#[derive(Drop)]
pub struct Libs<'a> {
    pub split: &'a Split,
    pub hosts: Places,
    pub bundled: Places,
    ghost hosts_are: { HasPlaces hosts (map (λ host. host.id) split.now.hosts) },
    ghost bundled_are: { HasPlaces bundled (map (λ lib. lib.id) split.now.libs) },
}

impl<'a> Libs<'a> {
    /// The libraries of a split.
    pub fn of(alloc: Global, split: &'a Split) -> Result<Libs<'a>, NoMemory>
        ensures { IfOk result (λ libs. libs.split.now ≡ split.now) }
    {
        let hosts = host_places(alloc, split.hosts.as_slice())?;
        let bundled = lib_places(alloc, split.libs.as_slice())?;
        Ok(Libs {
            split,
            hosts,
            bundled,
        })
    }

    /// The host library of this identity.
    pub fn host_with(&self, id: &[u8]) -> Option<&'a HostLib>
        ensures { option_map (λ host. host.now) result ≡ host_with self.now.split.now id.now }
    {
        match self.hosts.place(id) {
            Some(place) => self.split.hosts.as_slice().get(place),
            None => None,
        }
    }

    /// The bundled library of this identity.
    pub fn lib_with(&self, id: &[u8]) -> Option<&'a Member>
        ensures { option_map (λ lib. lib.now) result ≡ lib_with self.now.split.now id.now }
    {
        match self.bundled.place(id) {
            Some(place) => self.split.libs.as_slice().get(place),
            None => None,
        }
    }
}

/// Where the identities of host libraries stand.
fn host_places(alloc: Global, hosts: &[HostLib]) -> Result<Places, NoMemory>
    ensures { IfOk result (λ places. HasPlaces places (map (λ host. host.id) hosts.now)) }
{
    let mut places = Places::new(alloc);
    for host in hosts {
        places.add(alloc, host.id.as_bytes())?;
    }
    Ok(places)
}

/// Where the identities of bundled libraries stand.
fn lib_places(alloc: Global, libs: &[Member]) -> Result<Places, NoMemory>
    ensures { IfOk result (λ places. HasPlaces places (map (λ lib. lib.id) libs.now)) }
{
    let mut places = Places::new(alloc);
    for lib in libs {
        places.add(alloc, lib.id.as_bytes())?;
    }
    Ok(places)
}
