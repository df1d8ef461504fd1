//! Objects that are found by their identities.

use crate::seen::Seen;
use load_model::NoMemory;
use std::alloc::Global;
use text_sets::TextSet;

/// Objects, each where it was added first, and their identities.
#[derive(Drop)]
pub struct Firsts<'a> {
    pub seen: Vec<Seen<'a>>,
    pub ids: TextSet,
}

impl<'a> Firsts<'a> {
    ghost use Rattle.std.specs.Prelude.{◌≡◌, [], ◌∷◌, ◌++◌, IfOk, OnOk, map};
    ghost use Rattle.std.specs.List.{find, list_any};
    ghost use Rattle.std.specs.Option.{option_map};
    ghost use Rattle.lib_closure.specs.Objects.{each_first, has_id, with_object};
    ghost use Rattle.lib_closure.specs.Firsts.{AreFirsts};
    ghost use Rattle.lib_closure.specs.Seen.{standing};

    /// Each of these objects at its first place.
    pub fn of(alloc: Global, all: &[Seen<'a>]) -> Result<Firsts<'a>, NoMemory>
        ensures { IfOk result (λ firsts. AreFirsts firsts (each_first [] (map standing all.now))) }
    {
        let mut firsts = Firsts {
            seen: Vec::new(alloc),
            ids: TextSet::new(alloc),
        };
        for seen in all {
            firsts.add(alloc, *seen)?;
        }
        Ok(firsts)
    }

    /// Adds an object, unless it is there.
    fn add(&mut self, alloc: Global, seen: Seen<'a>) -> Result<(), NoMemory>
        requires { AreFirsts self.old (map standing self.old.seen.items) }
        ensures { OnOk result (AreFirsts self.new
            (with_object (map standing self.old.seen.items) (standing seen.entry))) }
    {
        if self.ids.contains(seen.obj.id.as_bytes()) {
            return Ok(());
        }
        self.ids.add(alloc, seen.obj.id.as_bytes())?;
        match self.seen.push(seen) {
            Ok(()) => Ok(()),
            Err(_) => Err(NoMemory),
        }
    }

    /// The object of this identity.
    pub fn find(&self, id: &[u8]) -> Option<Seen<'a>>
        requires { AreFirsts self.now (map standing self.now.seen.items) }
        ensures { option_map standing result
            ≡ find (has_id id.now) (map standing self.now.seen.items) }
    {
        match self.ids.position(id) {
            Some(place) => self.seen.get(place).copied(),
            None => None,
        }
    }

    /// Whether there is an object of this identity.
    pub fn has(&self, id: &[u8]) -> bool
        requires { AreFirsts self.now (map standing self.now.seen.items) }
        ensures { result ≡ list_any (has_id id.now) (map standing self.now.seen.items) }
    {
        self.ids.contains(id)
    }
}
