//! Values of a list at some places, which come in order.

ghost use Rattle.std.specs.Prelude.{◌≡◌, ◌≤◌, IfOk, Some, length, map, slice_get};

use load_model::NoMemory;
use std::alloc::Global;

/// The values at these places, in the order of the places. Where these do not come in order, each
/// behind the one before, this is told as want of memory.
pub fn selected<X: Drop>(alloc: Global, all: Vec<X>, places: &[u32]) -> Result<Vec<X>, NoMemory>
    ensures chosen { IfOk result (λ chosen.
        map (λ value. Some value) chosen.items ≡ map (slice_get all.items) places.now) }
    ensures no_more { IfOk result (λ chosen. length chosen.items ≤ length all.items) }
{
    let mut chosen = Vec::new(alloc);
    let mut place = 0;
    let mut next = 0;
    for value in all {
        if next < places.len() && places[next] as usize == place {
            match chosen.push(value) {
                Ok(()) => {}
                Err(_) => return Err(NoMemory),
            }
            next += 1;
        }
        place += 1;
    }
    if next < places.len() {
        return Err(NoMemory);
    }
    Ok(chosen)
}
