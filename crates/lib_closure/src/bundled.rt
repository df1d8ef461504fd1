//! What keeps a build from being split at its bundled libraries.
//!
//! The kind is said in `specs/Clashes.antt`.

ghost use Rattle.std.specs.Prelude.{◌≡◌, IfOk};
ghost use Rattle.std.specs.Option.{option_and_then, option_map};
ghost use Rattle.lib_closure.specs.Clashes.{file_split, first_file_split, first_need_split, goes_elsewhere, need_split, split_at, split_need};
ghost use Rattle.lib_closure.specs.Objects.{in_same_list};
ghost use Rattle.lib_closure.specs.OfBuild.{of_build};
ghost use Rattle.lib_closure.specs.Seen.{standing};

use crate::build::Build;
use crate::seen::Seen;
use crate::stops::ClosureStop;
use load_model::{Name, NoMemory};
use std::alloc::Global;

/// The first need or file of versions of a bundled library that goes elsewhere than it does at its
/// first place.
#[tactic(auto, unfolding(crate::specs::Clashes::split_need))]
pub fn split_need(alloc: Global, build: &Build<'_>) -> Result<Option<ClosureStop>, NoMemory>
    ensures { IfOk result (λ found. found ≡ of_build split_need build.now) }
{
    for seen in &build.all {
        if let Some(stop) = split_at(alloc, build, seen)? {
            return Ok(Some(stop));
        }
    }
    Ok(None)
}

/// The same of one object, where it is bundled.
#[tactic(auto, unfolding(crate::specs::Clashes::split_at))]
fn split_at<'a>(
    alloc: Global,
    build: &Build<'a>,
    seen: &Seen<'a>,
) -> Result<Option<ClosureStop>, NoMemory>
    ensures { IfOk result (λ found. found ≡ of_build split_at build.now (standing seen.now)) }
{
    if !build.is_bundled(seen) {
        return Ok(None);
    }
    let pair = Pair {
        first: build.first_place_of(seen),
        seen: *seen,
    };
    match first_need_split(alloc, build, &pair)? {
        Some(stop) => Ok(Some(stop)),
        None => first_file_split(alloc, build, &pair),
    }
}

/// An object at its first place, and where it stands again.
#[derive(Clone, Copy)]
pub struct Pair<'a> {
    pub first: Seen<'a>,
    pub seen: Seen<'a>,
}

/// The first need that goes elsewhere.
#[tactic(auto, unfolding(crate::specs::Clashes::first_need_split))]
fn first_need_split<'a>(
    alloc: Global,
    build: &Build<'a>,
    pair: &Pair<'a>,
) -> Result<Option<ClosureStop>, NoMemory>
    ensures { IfOk result (λ found. found ≡ of_build first_need_split build.now
        (standing pair.now.first) (standing pair.now.seen)) }
{
    let needs = pair.seen.face.needs.as_slice();
    let targets = pair.seen.targets();
    for (place, first) in pair.first.targets().iter().enumerate() {
        let need = match needs.get(place) {
            Some(need) => need,
            None => return Ok(None),
        };
        let target = match targets.get(place) {
            Some(target) => target,
            None => return Ok(None),
        };
        let (one, other) = (
            pair.first.in_same_list(*first),
            pair.seen.in_same_list(*target),
        );
        if let Some(stop) = goes_elsewhere(alloc, build, &pair.seen, need, (one, other))? {
            return Ok(Some(stop));
        }
    }
    Ok(None)
}

/// The first file of versions that goes elsewhere.
#[tactic(auto, unfolding(crate::specs::Clashes::first_file_split))]
fn first_file_split<'a>(
    alloc: Global,
    build: &Build<'a>,
    pair: &Pair<'a>,
) -> Result<Option<ClosureStop>, NoMemory>
    ensures { IfOk result (λ found. found ≡ of_build first_file_split build.now
        (standing pair.now.first) (standing pair.now.seen)) }
{
    let asks = pair.seen.face.asks.as_slice();
    let files = pair.seen.files();
    for (place, first) in pair.first.files().iter().enumerate() {
        let ask = match asks.get(place) {
            Some(ask) => ask,
            None => return Ok(None),
        };
        let file = match files.get(place) {
            Some(file) => file,
            None => return Ok(None),
        };
        let (one, other) = (
            in_same_list_if_any(&pair.first, *first),
            in_same_list_if_any(&pair.seen, *file),
        );
        if let Some(stop) = goes_elsewhere(alloc, build, &pair.seen, &ask.file, (one, other))? {
            return Ok(Some(stop));
        }
    }
    Ok(None)
}

/// The object of this number in the load list of another, where there is a number.
fn in_same_list_if_any<'a>(seen: &Seen<'a>, number: Option<u32>) -> Option<Seen<'a>>
    ensures { option_map standing result
        ≡ option_and_then (in_same_list (standing seen.now)) number }
{
    match number {
        Some(number) => seen.in_same_list(number),
        None => None,
    }
}

/// The stop where a name of an object goes to two objects.
fn goes_elsewhere<'a>(
    alloc: Global,
    build: &Build<'a>,
    seen: &Seen<'a>,
    name: &Name,
    targets: (Option<Seen<'a>>, Option<Seen<'a>>),
) -> Result<Option<ClosureStop>, NoMemory>
    ensures { IfOk result (λ found. found ≡ of_build goes_elsewhere build.now (standing seen.now)
        name.now (option_map standing targets.entry.0) (option_map standing targets.entry.1)) }
{
    let (Some(one), Some(other)) = targets else {
        return Ok(None);
    };
    if one.obj.id.as_bytes() == other.obj.id.as_bytes() {
        return Ok(None);
    }
    let path = build.path_of(seen).copy(alloc)?;
    let name = name.copy(alloc)?;
    let one = build.path_of(&one).copy(alloc)?;
    let other = build.path_of(&other).copy(alloc)?;
    Ok(Some(ClosureStop::SplitNeed(path, name, one, other)))
}
