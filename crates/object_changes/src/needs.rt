//! The needs of an object, as names of their targets.
//!
//! Said in `specs/Changing.antt`.

ghost use Rattle.std.specs.Prelude.{◌≡◌, IfOk};
ghost use Rattle.std.specs.Option.{option_map, unwrap_or};
ghost use Rattle.lib_closure.specs.Seen.{standing};
ghost use Rattle.object_changes.specs.Changing.{new_needs};
ghost use Rattle.object_changes.specs.OfNames.{of_names};

use crate::object_names::ObjectNames;
use lib_closure::Seen;
use load_model::{List, Name, NoMemory};
use std::alloc::Global;

/// The names of what an object needs.
pub fn new_needs<'a>(
    alloc: Global,
    names: &ObjectNames<'a>,
    seen: &Seen<'a>,
) -> Result<List<Name>, NoMemory>
    ensures { IfOk result (λ needs. needs ≡ of_names new_needs names.now (standing seen.now)) }
{
    let targets = seen.targets();
    let mut needs = List::new(alloc);
    for (place, need) in seen.face.needs.as_slice().iter().enumerate() {
        let target = match targets.get(place) {
            Some(target) => *target,
            None => return Ok(needs),
        };
        let name = name_or(names.name_beside(seen, target), need);
        needs.push(name.copy(alloc)?)?;
    }
    Ok(needs)
}

/// The name, or the text where there is none.
pub fn name_or<'a>(name: Option<&'a Name>, text: &'a Name) -> &'a Name
    ensures { result.now ≡ unwrap_or (option_map (λ n. n.now) name.entry) text.now }
{
    match name {
        Some(name) => name,
        None => text,
    }
}
