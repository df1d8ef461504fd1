//! The first offer of a scope.
//!
//! System V gABI, Shared Object Dependencies. Scopes are said in `specs/Scopes.antt` of
//! `load_model`; what is found here, by an index of faces, in `specs/Finding.antt`.

ghost use Rattle.std.specs.Prelude.{◌≡◌, ◌<◌, ◌≤◌, ◌++◌, All, IfSome, None, length, map, slice_get};
ghost use Rattle.std.specs.Option.{option_to_list};
ghost use Rattle.load_model.specs.LoadList.{up_to};
ghost use Rattle.load_model.specs.Runs.{AreBelow};
ghost use Rattle.load_model.specs.Scopes.{local_of};
ghost use Rattle.scope_lookup.specs.Finding.{IsSearchable, first_found_in, found_in_object};

use crate::binding::is_copy;
use crate::wanting::Wanted;
use load_model::{Def, Offers, Run};

/// The first offer of the scope of an object; `itself` is the object where it is symbolic.
pub fn first_in_scope<F: Offers>(
    index: &[F],
    run: &Run,
    obj: u32,
    itself: Option<u32>,
    wanted: Wanted<'_>,
) -> Option<Def>
    requires searchable { IsSearchable (map F.offered index.now) run.now }
    requires obj { obj < length run.now.objs }
    requires itself { IfSome itself (λ k. k < length run.now.objs) }
    ensures { result ≡ first_found_in (map F.offered index.now) run.now wanted.entry
        (option_to_list itself ++ (up_to run.now.global
        ++ local_of run.now (slice_get run.now.objs obj))) }
{
    if let Some(number) = itself {
        if let Some(def) = offer_at(index, run, number, wanted) {
            return Some(def);
        }
    }
    if let Some(def) = first_global(index, run, itself, wanted) {
        return Some(def);
    }
    first_local(index, run, local_list(run, obj), itself, wanted)
}

/// The first offer of the global list. The object itself is not looked at again.
pub fn first_global<F: Offers>(
    index: &[F],
    run: &Run,
    itself: Option<u32>,
    wanted: Wanted<'_>,
) -> Option<Def>
    requires searchable { IsSearchable (map F.offered index.now) run.now }
    requires looked { IfSome itself (λ k. found_in_object (map F.offered index.now) run.now
        wanted k ≡ None) }
    ensures { result ≡ first_found_in (map F.offered index.now) run.now wanted.entry
        (up_to run.now.global) }
{
    for number in 0..run.global {
        if Some(number) != itself {
            if let Some(def) = offer_at(index, run, number, wanted) {
                return Some(def);
            }
        }
    }
    None
}

/// The first offer of a local list. Neither the object itself nor the global list is looked at
/// again.
pub fn first_local<F: Offers>(
    index: &[F],
    run: &Run,
    numbers: &[u32],
    itself: Option<u32>,
    wanted: Wanted<'_>,
) -> Option<Def>
    requires searchable { IsSearchable (map F.offered index.now) run.now }
    requires numbers { AreBelow (length run.now.objs) numbers.now }
    requires looked { IfSome itself (λ k. found_in_object (map F.offered index.now) run.now
        wanted k ≡ None) }
    requires global { first_found_in (map F.offered index.now) run.now wanted
        (up_to run.now.global) ≡ None }
    ensures { result ≡ first_found_in (map F.offered index.now) run.now wanted.entry
        numbers.now }
{
    for number in numbers {
        if *number >= run.global && Some(*number) != itself {
            if let Some(def) = offer_at(index, run, *number, wanted) {
                return Some(def);
            }
        }
    }
    None
}

/// The local list of the opened name that brought an object; empty for those of the start.
pub fn local_list(run: &Run, obj: u32) -> &[u32]
    requires obj { obj < length run.now.objs }
    requires phases { All (λ o. o.phase ≤ length run.now.locals) run.now.objs }
    requires locals { All (AreBelow (length run.now.objs)) run.now.locals }
    ensures list { result.now ≡ local_of run.now (slice_get run.now.objs obj) }
    ensures below { AreBelow (length run.now.objs) result.now }
{
    match run.objs.as_slice()[obj as usize].phase.checked_sub(1) {
        Some(place) => run.locals.as_slice()[place as usize].as_slice(),
        None => &[],
    }
}

/// What an object offers to a reference. The program offers nothing to a copy.
pub fn offer_at<F: Offers>(index: &[F], run: &Run, number: u32, wanted: Wanted<'_>) -> Option<Def>
    requires searchable { IsSearchable (map F.offered index.now) run.now }
    requires number { number < length run.now.objs }
    ensures { result ≡ found_in_object (map F.offered index.now) run.now wanted.entry
        number }
{
    if number == 0 && is_copy(wanted.class) {
        return None;
    }
    let offers = &index[run.objs.as_slice()[number as usize].face as usize];
    match offers.offer(wanted.name, wanted.version, wanted.class) {
        Some(sym) => Some(Def { obj: number, sym }),
        None => None,
    }
}
