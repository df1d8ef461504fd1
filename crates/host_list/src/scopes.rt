//! The scopes of the objects of a run, each object once.
//!
//! System V gABI, Shared Object Dependencies. Scopes are said in `specs/Scopes.antt` of
//! `load_model`.

ghost use Rattle.std.specs.Prelude.{◌≡◌, ◌<◌, ◌∷◌, [], ◌==◌, ◌++◌, IfOk, OnOk, cond, length, map, slice_get, vec_items};
ghost use Rattle.std.specs.List.{list_any};
ghost use Rattle.load_model.specs.LoadList.{up_to, with_numbers};
ghost use Rattle.load_model.specs.Runs.{IsRunOver};
ghost use Rattle.load_model.specs.Scopes.{local_of, scope_of};

use load_model::{Face, NoMemory, Run};
use std::alloc::Global;

/// For each object the objects where its references are looked up.
#[tactic(auto, unfolding(load_model::specs::LoadList::up_to))]
pub(crate) fn scopes_in(alloc: Global, faces: &[Face], run: &Run) -> Result<Vec<Vec<u32>>, NoMemory>
    requires { IsRunOver faces.now run.now }
    ensures { IfOk result (λ scopes. map vec_items scopes.items
        ≡ map (scope_of faces.now run.now) (up_to (length run.now.objs))) }
{
    let mut scopes = Vec::new(alloc);
    for obj in 0..run.objs.as_slice().len() as u32 {
        let scope = scope_in(alloc, faces, run, obj)?;
        match scopes.push(scope) {
            Ok(()) => {}
            Err(_) => return Err(NoMemory),
        }
    }
    Ok(scopes)
}

/// The objects where the references of this object are looked up.
#[tactic(auto, unfolding(load_model::specs::Scopes::scope_of))]
fn scope_in(alloc: Global, faces: &[Face], run: &Run, obj: u32) -> Result<Vec<u32>, NoMemory>
    requires run { IsRunOver faces.now run.now }
    requires obj { obj < length run.now.objs }
    ensures { IfOk result (λ scope. scope.items ≡ scope_of faces.now run.now obj) }
{
    let mut scope = itself(alloc, run.face_of(faces, obj).symbolic, obj)?;
    add_below(&mut scope, run.global)?;
    add_numbers(&mut scope, local_list(run, obj))?;
    Ok(scope)
}

/// The object itself where it is symbolic.
fn itself(alloc: Global, symbolic: bool, obj: u32) -> Result<Vec<u32>, NoMemory>
    ensures { IfOk result (λ scope. scope.items ≡ cond symbolic (obj ∷ []) []) }
{
    let mut scope = Vec::new(alloc);
    if symbolic {
        add_number(&mut scope, obj)?;
    }
    Ok(scope)
}

/// The local list of the opened name that brought an object, if one did.
fn local_list(run: &Run, obj: u32) -> &[u32]
    ensures { result.now ≡ local_of run.now (slice_get run.now.objs obj) }
{
    let Some(object) = run.objs.as_slice().get(obj as usize) else {
        return &[];
    };
    match object.phase.checked_sub(1) {
        Some(place) => match run.locals.as_slice().get(place as usize) {
            Some(list) => list.as_slice(),
            None => &[],
        },
        None => &[],
    }
}

/// Adds the numbers below a bound.
#[tactic(auto, unfolding(load_model::specs::LoadList::with_numbers, load_model::specs::LoadList::up_to))]
fn add_below(scope: &mut Vec<u32>, bound: u32) -> Result<(), NoMemory>
    ensures { OnOk result (scope.new.items ≡ with_numbers scope.old.items (up_to bound)) }
{
    for number in 0..bound {
        add_number(scope, number)?;
    }
    Ok(())
}

#[tactic(auto, unfolding(load_model::specs::LoadList::with_numbers))]
fn add_numbers(scope: &mut Vec<u32>, numbers: &[u32]) -> Result<(), NoMemory>
    ensures { OnOk result (scope.new.items ≡ with_numbers scope.old.items numbers.now) }
{
    for number in numbers {
        add_number(scope, *number)?;
    }
    Ok(())
}

/// Adds a number, unless it is there.
fn add_number(scope: &mut Vec<u32>, number: u32) -> Result<(), NoMemory>
    ensures { OnOk result (scope.new.items
        ≡ cond (list_any (λ k. k == number) scope.old.items) scope.old.items
        (scope.old.items ++ number ∷ [])) }
{
    if has_number(scope.as_slice(), number) {
        return Ok(());
    }
    match scope.push(number) {
        Ok(()) => Ok(()),
        Err(_) => Err(NoMemory),
    }
}

fn has_number(numbers: &[u32], number: u32) -> bool
    ensures { result ≡ list_any (λ k. k == number) numbers.now }
{
    numbers.iter().any(|known| *known == number)
}
