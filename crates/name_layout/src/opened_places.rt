//! Where opened names and the identities of their objects stand first.

ghost use Rattle.std.specs.Prelude.{◌≡◌, IfOk, map};
ghost use Rattle.name_layout.specs.Opened.{as_opening};
ghost use Rattle.name_layout.specs.Sets.{HasPlaces};

use crate::opened::Opened;
use crate::places::Places;
use load_model::NoMemory;
use std::alloc::Global;

/// Where roots stand.
pub fn root_places(alloc: Global, all: &[Opened<'_>]) -> Result<Places, NoMemory>
    ensures { IfOk result (λ places. HasPlaces places
        (map (λ o. o.root) (map as_opening all.now))) }
{
    let mut places = Places::new(alloc);
    for opened in all {
        places.add(alloc, opened.root.as_bytes())?;
    }
    Ok(places)
}

/// Where names stand.
pub fn name_places(alloc: Global, all: &[Opened<'_>]) -> Result<Places, NoMemory>
    ensures { IfOk result (λ places. HasPlaces places
        (map (λ o. o.name) (map as_opening all.now))) }
{
    let mut places = Places::new(alloc);
    for opened in all {
        places.add(alloc, opened.name.as_bytes())?;
    }
    Ok(places)
}
