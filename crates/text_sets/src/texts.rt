//! Texts without repeats, found by their hashes.

ghost use Rattle.std.specs.Prelude.{◌≡◌, [], map, bytes_eq, position, vec_items, OnOk};
ghost use Rattle.std.specs.List.{list_any};
ghost use Rattle.indexmap.specs.IndexSet.{insert_key};

use indexmap::IndexSet;
use load_model::NoMemory;
use std::alloc::Global;
use std::marker::Model;

/// Texts, each once, in the order in which they were added.
#[derive(Drop)]
pub struct TextSet {
    set: IndexSet<Vec<u8>>,
}

impl Model for TextSet {
    ghost use Rattle.std.specs.Prelude.{List, ℕ, map, vec_items};

    ghost Value = { List (List ℕ) };

    ghost view = { λ texts. map vec_items texts.set.keys };
}

impl TextSet {
    /// No texts.
    pub fn new(alloc: Global) -> TextSet
        ensures { result ≡ [] }
    {
        TextSet {
            set: IndexSet::new(alloc),
        }
    }

    /// Adds a text, unless it is there.
    pub fn add(&mut self, alloc: Global, text: &[u8]) -> Result<(), NoMemory>
        ensures { OnOk result (self.new ≡ insert_key bytes_eq self.old text.now) }
    {
        let text = Vec::from_slice(alloc, text)?;
        let Ok(_) = self.set.insert(text) else {
            return Err(NoMemory);
        };
        Ok(())
    }

    /// How many texts were added before this one.
    pub fn position(&self, text: &[u8]) -> Option<usize>
        ensures { result ≡ position (λ t. bytes_eq text.now t) self.now }
    {
        self.set.get_index_of(text)
    }

    /// Whether a text is there.
    pub fn contains(&self, text: &[u8]) -> bool
        ensures { result ≡ list_any (λ t. bytes_eq text.now t) self.now }
    {
        self.set.contains(text)
    }
}
