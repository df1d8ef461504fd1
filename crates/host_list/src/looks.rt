//! What references find in host libraries, as `specs/Recording.antt` says.

ghost use Rattle.std.specs.Prelude.{◌≡◌, ◌<◌, ◌++◌, All, IfOk, IfSome, IsSome, OnOk, Some, flat_map, fold, length, option_to_list};
ghost use Rattle.std.specs.BTreeSet.{insert_key};
ghost use Rattle.std.specs.Option.{option_copied};
ghost use Rattle.load_model.specs.Bindings.{IsBindOver, binds_itself, is_copy, is_own, looked_in, symbol_at, wanted_version};
ghost use Rattle.load_model.specs.Runs.{IsRunOver};
ghost use Rattle.host_record.specs.Orders.{full_look_cmp};
ghost use Rattle.host_record.specs.declared.records.Answer.TheVariants.{Nothing as FindsNothing};
ghost use Rattle.host_list.specs.Answers.{answer_of, answer_of_version, is_call};
ghost use Rattle.host_list.specs.Places.{IsPlaceInRun, is_skipped, look_missed};
ghost use Rattle.host_list.specs.Recording.{host_at, host_numbers, is_at, look_found, look_in_object, looked_past, looks_by, looks_past};

use crate::places::{Place, host_at};
use byte_view::constants::{STV_HIDDEN, STV_INTERNAL, STV_PROTECTED};
use host_record::{Answer, Look};
use load_model::{Bind, Class, Def, Name, NoMemory, Sym, Ver};
use std::alloc::Global;
use std::collections::BTreeSet;

/// A symbol that is looked up in a class, and for each object the number of the host library that
/// it is.
#[derive(Clone, Copy)]
struct Reference<'a> {
    symbol: &'a Sym,
    class: Class,
    numbers: &'a [Option<u32>],
}

/// Adds what the references of these bindings find, but for those that are there.
pub(crate) fn add_binds(
    alloc: Global,
    looks: &mut BTreeSet<Look>,
    place: &Place<'_>,
    binds: &[Bind],
) -> Result<(), NoMemory>
    requires run { IsRunOver place.now.faces.now place.now.run.now }
    requires place { IsPlaceInRun place.now }
    requires binds { All (IsBindOver place.now.faces.now place.now.run.now) binds.now }
    ensures { OnOk result (looks.new.keys ≡ fold (insert_key full_look_cmp) looks.old.keys
        (flat_map (looks_by place.now.faces.now place.now.hosts.now place.now.run.now)
        binds.now)) }
{
    'binds: for bind in binds {
        let found = looks_of(alloc, place, *bind)?;
        add_all(looks, found)?;
    }
    Ok(())
}

/// Adds looks, but for those that are there.
fn add_all(looks: &mut BTreeSet<Look>, found: Vec<Look>) -> Result<(), NoMemory>
    ensures { OnOk result
        (looks.new.keys ≡ fold (insert_key full_look_cmp) looks.old.keys found.items) }
{
    'found: for look in found {
        if looks.insert(look).is_err() {
            return Err(NoMemory);
        }
    }
    Ok(())
}

/// What a reference finds in the host libraries of its scope, up to the object that it binds to.
#[tactic(auto, unfolding(crate::specs::Recording::looks_by))]
fn looks_of(alloc: Global, place: &Place<'_>, bind: Bind) -> Result<Vec<Look>, NoMemory>
    requires run { IsRunOver place.now.faces.now place.now.run.now }
    requires place { IsPlaceInRun place.now }
    requires bind { IsBindOver place.now.faces.now place.now.run.now bind }
    ensures { IfOk result (λ looks. looks.items
        ≡ looks_by place.now.faces.now place.now.hosts.now place.now.run.now bind) }
{
    let mut found = Vec::new(alloc);
    let numbers = place.numbers.as_slice();
    if host_at(numbers, bind.obj).is_some() {
        return Ok(found);
    }
    let symbol = place.run.symbol_of(place.faces, bind.obj, bind.sym);
    if binds_itself(bind.class, symbol) {
        return Ok(found);
    }
    let reference = Reference {
        symbol,
        class: bind.class,
        numbers,
    };
    push_past(alloc, &mut found, reference, place.scope(bind.obj), bind.to)?;
    push_found(alloc, &mut found, reference, place, bind.to)?;
    Ok(found)
}

/// Adds the host libraries that a reference looks past, before the object that it binds to.
#[tactic(auto, unfolding(crate::specs::Recording::looks_past))]
fn push_past(
    alloc: Global,
    found: &mut Vec<Look>,
    reference: Reference<'_>,
    scope: &[u32],
    to: Option<Def>,
) -> Result<(), NoMemory>
    ensures { OnOk result (found.new.items ≡ found.old.items
        ++ looks_past reference.entry.numbers.now reference.entry.symbol.now reference.entry.class
        (looked_past to (looked_in reference.entry.class scope.now))) }
{
    'scope: for obj in scope {
        if !is_skipped(reference.class, *obj) && is_at(to, *obj) {
            return Ok(());
        }
        push_missed(alloc, found, reference, *obj)?;
    }
    Ok(())
}

/// Adds a host library that a reference looks past.
fn push_missed(
    alloc: Global,
    found: &mut Vec<Look>,
    reference: Reference<'_>,
    obj: u32,
) -> Result<(), NoMemory>
    ensures { OnOk result (found.new.items ≡ found.old.items
        ++ look_missed reference.entry.numbers.now reference.entry.symbol.now
        reference.entry.class obj) }
{
    if is_skipped(reference.class, obj) {
        return Ok(());
    }
    push_look(alloc, found, reference, obj, Answer::Nothing)
}

/// Whether a reference does not look there: a copy does not look in the program.
fn is_skipped(class: Class, obj: u32) -> bool
    ensures { result ≡ is_skipped class obj }
{
    is_copy(class) && obj == 0
}

/// Whether a definition is one of this object.
fn is_at(to: Option<Def>, obj: u32) -> bool
    ensures { result ≡ is_at to obj }
{
    match to {
        Some(def) => obj == def.obj,
        None => false,
    }
}

/// Adds the object that a reference binds to, where that is a host library.
fn push_found(
    alloc: Global,
    found: &mut Vec<Look>,
    reference: Reference<'_>,
    place: &Place<'_>,
    to: Option<Def>,
) -> Result<(), NoMemory>
    requires run { IsRunOver place.now.faces.now place.now.run.now }
    requires to { IfSome to (λ d. IsSome (symbol_at place.now.faces.now place.now.run.now d.obj
        d.sym)) }
    requires numbers { reference.numbers.now ≡ host_numbers place.now.hosts.now place.now.run.now }
    ensures { OnOk result (found.new.items ≡ found.old.items
        ++ look_found place.now.faces.now place.now.hosts.now place.now.run.now
        reference.entry.symbol.now reference.entry.class to) }
{
    match to {
        Some(def) => {
            let answer = answer_of(alloc, place.run.symbol_of(place.faces, def.obj, def.sym))?;
            push_look(alloc, found, reference, def.obj, answer)
        }
        None => Ok(()),
    }
}

/// Adds what a reference finds in an object, where that is a host library.
fn push_look(
    alloc: Global,
    found: &mut Vec<Look>,
    reference: Reference<'_>,
    obj: u32,
    answer: Answer,
) -> Result<(), NoMemory>
    ensures { OnOk result (found.new.items ≡ found.old.items
        ++ option_to_list (look_in_object reference.entry.numbers.now reference.entry.symbol.now
        reference.entry.class answer obj)) }
{
    let Some(lib) = host_at(reference.numbers, obj) else {
        return Ok(());
    };
    let symbol = reference.symbol;
    let look = Look {
        lib,
        name: symbol.name.copy(alloc)?,
        version: wanted_version(alloc, &symbol.version)?,
        call: is_call(reference.class),
        answer,
    };
    match found.push(look) {
        Ok(()) => Ok(()),
        Err(_) => Err(NoMemory),
    }
}

/// The name of the version that a reference asks for, if any.
fn wanted_version(alloc: Global, version: &Ver) -> Result<Option<Name>, NoMemory>
    ensures { IfOk result (λ name. name ≡ wanted_version version.now) }
{
    match version {
        Ver::Local | Ver::Global => Ok(None),
        Ver::Named { name, .. } => Ok(Some(name.copy(alloc)?)),
    }
}

/// What a look finds that finds this symbol.
fn answer_of(alloc: Global, symbol: &Sym) -> Result<Answer, NoMemory>
    ensures { IfOk result (λ answer. answer ≡ answer_of (Some symbol.now)) }
{
    match wanted_version(alloc, &symbol.version)? {
        Some(name) => Ok(Answer::Version(name)),
        None => Ok(Answer::Plain),
    }
}

fn is_call(class: Class) -> bool
    ensures { result ≡ is_call class }
{
    match class {
        Class::Call => true,
        Class::Plain | Class::Copy => false,
    }
}

fn is_copy(class: Class) -> bool
    ensures { result ≡ is_copy class }
{
    match class {
        Class::Copy => true,
        Class::Plain | Class::Call => false,
    }
}

/// Whether a reference binds to its own symbol by visibility.
fn binds_itself(class: Class, symbol: &Sym) -> bool
    ensures { result ≡ binds_itself class symbol.now }
{
    !is_copy(class) && is_own(symbol)
}

/// Whether no other object's symbol takes the place of this one.
fn is_own(symbol: &Sym) -> bool
    ensures { result ≡ is_own symbol.now }
{
    symbol.visibility == STV_HIDDEN
        || symbol.visibility == STV_INTERNAL
        || symbol.defined && symbol.visibility == STV_PROTECTED
}
