//! The names of the libraries, found by their hashes.

ghost use Rattle.std.specs.Prelude.{◌≡◌, ◌∷◌, [], ◌++◌, IfSome, OnOk, false, is_some};
ghost use Rattle.host_record.specs.Said.{is_declared, lib_number};

use indexmap::IndexSet;
use load_model::NoMemory;
use std::alloc::Global;
use std::marker::Model;

/// Names, each once, in the order in which they were added.
#[derive(Drop)]
pub(crate) struct Names {
    set: IndexSet<Vec<u8>>,
}

impl Model for Names {
    ghost use Rattle.std.specs.Prelude.{List, ℕ, map, vec_items};

    ghost Value = { List (List ℕ) };

    ghost view = { λ names. map vec_items names.set.keys };
}

impl Names {
    pub(crate) fn new(alloc: Global) -> Names
        ensures { result ≡ [] }
    {
        Names {
            set: IndexSet::new(alloc),
        }
    }

    /// Adds a name that is not there.
    pub(crate) fn add(&mut self, alloc: Global, name: &[u8]) -> Result<(), NoMemory>
        requires { is_declared self.now name.now ≡ false }
        ensures { OnOk result (self.new ≡ self.old ++ name.now ∷ []) }
    {
        let name = Vec::from_slice(alloc, name)?;
        let Ok(_) = self.set.insert(name) else {
            return Err(NoMemory);
        };
        Ok(())
    }

    /// How many names were added before this one.
    pub(crate) fn number(&self, name: &[u8]) -> Option<usize>
        ensures found { is_some result ≡ is_declared self.now name.now }
        ensures number { IfSome result (λ n. n ≡ lib_number self.now name.now) }
    {
        self.set.get_index_of(name)
    }

    /// Whether the name is there.
    pub(crate) fn has(&self, name: &[u8]) -> bool
        ensures { result ≡ is_declared self.now name.now }
    {
        self.number(name).is_some()
    }
}
