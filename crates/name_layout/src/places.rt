//! Where names stand first in a list.

use crate::name_sets::NameSet;
use load_model::NoMemory;
use std::alloc::Global;

/// The names of a list, each with its first place, and their count.
#[derive(Drop)]
pub struct Places {
    pub names: NameSet,
    pub firsts: Vec<usize>,
    pub count: usize,
}

impl Places {
    ghost use Rattle.std.specs.Prelude.{◌≡◌, [], ◌∷◌, ◌++◌, ℕ, List, OnOk, bytes_eq, position};
    ghost use Rattle.name_layout.specs.Sets.{HasPlaces, place_kept};

    /// Of no names.
    pub fn new(alloc: Global) -> Places
        ensures { HasPlaces result [] }
    {
        Places {
            names: NameSet::new(alloc),
            firsts: Vec::new(alloc),
            count: 0,
        }
    }

    /// Adds the next name of the list.
    pub fn add(&mut self, alloc: Global, name: &[u8]) -> Result<(), NoMemory>
        ensures { OnOk result ((names : List (List ℕ)) → HasPlaces self.old names
            → HasPlaces self.new (names ++ name.now ∷ [])) }
    {
        let place = self.count;
        let Some(count) = place.checked_add(1) else {
            return Err(NoMemory);
        };
        self.count = count;
        if self.names.contains(name) {
            return Ok(());
        }
        self.names.add(alloc, name)?;
        match self.firsts.push(place) {
            Ok(()) => Ok(()),
            Err(_) => Err(NoMemory),
        }
    }

    /// The first place of a name.
    pub fn place(&self, name: &[u8]) -> Option<usize>
        ensures { result ≡ place_kept self.now name.now }
    {
        match self.names.position(name) {
            Some(number) => self.firsts.get(number).copied(),
            None => None,
        }
    }
}
