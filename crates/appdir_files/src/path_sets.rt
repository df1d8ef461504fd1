//! Paths without repeats, found by their hashes.

ghost use Rattle.std.specs.Prelude.{◌≡◌, [], ◌||◌, bytes_eq, map, vec_items, OnOk, ℕ, List};
ghost use Rattle.std.specs.List.{list_any};
ghost use Rattle.appdir_files.specs.Listing.{is_folder_of};
ghost use Rattle.indexmap.specs.IndexSet.{insert_key};

use indexmap::IndexSet;
use load_model::NoMemory;
use std::alloc::Global;
use std::marker::Model;

/// Paths, each once, in the order in which they were added.
#[derive(Drop)]
pub struct PathSet {
    set: IndexSet<Vec<u8>>,
}

impl Model for PathSet {
    ghost use Rattle.std.specs.Prelude.{List, ℕ, map, vec_items};

    ghost Value = { List (List ℕ) };

    ghost view = { λ paths. map vec_items paths.set.keys };
}

impl PathSet {
    /// No paths.
    pub fn new(alloc: Global) -> PathSet
        ensures { result ≡ [] }
    {
        PathSet {
            set: IndexSet::new(alloc),
        }
    }

    /// Adds a path, unless it is there.
    pub fn add(&mut self, alloc: Global, path: &[u8]) -> Result<(), NoMemory>
        ensures { OnOk result (self.new ≡ insert_key bytes_eq self.old path.now) }
    {
        let path = Vec::from_slice(alloc, path)?;
        let Ok(_) = self.set.insert(path) else {
            return Err(NoMemory);
        };
        Ok(())
    }

    /// Adds each folder that a path lies in.
    pub fn add_folders(&mut self, alloc: Global, path: &[u8]) -> Result<(), NoMemory>
        ensures { OnOk result ((folder : List ℕ) → list_any (bytes_eq folder) self.new
            ≡ (list_any (bytes_eq folder) self.old || is_folder_of folder path.now)) }
    {
        for (at, byte) in path.iter().enumerate() {
            if *byte == b'/' {
                self.add(alloc, &path[..at])?;
            }
        }
        Ok(())
    }

    /// Whether a path is there.
    pub fn contains(&self, path: &[u8]) -> bool
        ensures { result ≡ list_any (bytes_eq path.now) self.now }
    {
        self.set.contains(path)
    }

    /// Whether a folder is there that a path lies in.
    pub fn contains_folder(&self, path: &[u8]) -> bool
        ensures { result ≡ list_any (λ folder. is_folder_of folder path.now) self.now }
    {
        for (at, byte) in path.iter().enumerate() {
            if *byte == b'/' && self.contains(&path[..at]) {
                return true;
            }
        }
        false
    }
}
