//! Texts without repeats, found by their hashes.

ghost use Rattle.std.specs.Prelude.{◌≡◌, [], map, bytes_eq, position, vec_items, OnOk};
ghost use Rattle.elf_shape.specs.Distinct.{with_text};

use indexmap::IndexSet;
use load_model::NoMemory;
use std::alloc::Global;
use std::marker::Model;

/// Texts, each once, in the order in which they were added.
#[derive(Drop)]
pub(crate) struct Texts {
    set: IndexSet<Vec<u8>>,
}

impl Model for Texts {
    ghost use Rattle.std.specs.Prelude.{List, ℕ, map, vec_items};

    ghost Value = { List (List ℕ) };

    ghost view = { λ texts. map vec_items texts.set.keys };
}

impl Texts {
    pub(crate) fn new(alloc: Global) -> Texts
        ensures { result ≡ [] }
    {
        Texts {
            set: IndexSet::new(alloc),
        }
    }

    /// Adds a text, unless it is there.
    pub(crate) fn add(&mut self, alloc: Global, text: &[u8]) -> Result<(), NoMemory>
        ensures { OnOk result (self.new ≡ with_text self.old text.now) }
    {
        let text = Vec::from_slice(alloc, text)?;
        let Ok(_) = self.set.insert(text) else {
            return Err(NoMemory);
        };
        Ok(())
    }

    /// How many texts were added before this one.
    pub(crate) fn position(&self, text: &[u8]) -> Option<usize>
        ensures { result ≡ position (λ t. bytes_eq text.now t) self.now }
    {
        self.set.get_index_of(text)
    }

    /// The texts, in order.
    pub(crate) fn as_slice(&self) -> &[Vec<u8>]
        ensures { map vec_items result.now ≡ self.now }
    {
        self.set.as_slice()
    }
}
