//! Names without repeats, found by their hashes.

ghost use Rattle.std.specs.Prelude.{◌≡◌, [], map, bytes_eq, position, vec_items, IfOk, OnOk, ℕ, List};
ghost use Rattle.std.specs.List.{list_any};
ghost use Rattle.indexmap.specs.IndexSet.{insert_key};
ghost use Rattle.name_layout.specs.Sets.{HasNames};

use indexmap::IndexSet;
use load_model::{Name, NoMemory};
use std::alloc::Global;
use std::marker::Model;

/// Names, each once, in the order in which they were added.
#[derive(Drop)]
pub struct NameSet {
    set: IndexSet<Vec<u8>>,
}

impl Model for NameSet {
    ghost use Rattle.std.specs.Prelude.{List, ℕ, map, vec_items};

    ghost Value = { List (List ℕ) };

    ghost view = { λ names. map vec_items names.set.keys };
}

impl NameSet {
    /// No names.
    pub fn new(alloc: Global) -> NameSet
        ensures { result ≡ [] }
    {
        NameSet {
            set: IndexSet::new(alloc),
        }
    }

    /// The names of a list.
    pub fn of(alloc: Global, names: &[Name]) -> Result<NameSet, NoMemory>
        ensures { IfOk result (λ set. HasNames set names.now) }
    {
        let mut set = NameSet::new(alloc);
        for name in names {
            set.add(alloc, name.as_bytes())?;
        }
        Ok(set)
    }

    /// Adds a name, unless it is there.
    pub fn add(&mut self, alloc: Global, name: &[u8]) -> Result<(), NoMemory>
        ensures { OnOk result (self.new ≡ insert_key bytes_eq self.old name.now) }
    {
        let name = Vec::from_slice(alloc, name)?;
        let Ok(_) = self.set.insert(name) else {
            return Err(NoMemory);
        };
        Ok(())
    }

    /// How many names were added before this one.
    pub fn position(&self, name: &[u8]) -> Option<usize>
        ensures { result ≡ position (λ t. bytes_eq name.now t) self.now }
    {
        self.set.get_index_of(name)
    }

    /// Whether a name is there.
    pub fn contains(&self, name: &[u8]) -> bool
        ensures { result ≡ list_any (λ t. bytes_eq name.now t) self.now }
    {
        self.set.contains(name)
    }
}
