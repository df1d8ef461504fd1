//! The names that version files become, found by who asks and by the file.
//!
//! Said in `specs/NamedFiles.antt`.

use indexmap::IndexMap;
use load_model::{Name, NoMemory};
use std::alloc::Global;
use std::marker::Model;

/// A version file by which an object asks.
#[derive(Clone, Copy, PartialEq, Eq, Hash)]
pub struct AskedFile<'a> {
    pub asker: &'a [u8],
    pub file: &'a [u8],
}

/// For each version file by which an object asks the name that was told first.
#[derive(Drop)]
pub struct FileTable<'a> {
    names: IndexMap<AskedFile<'a>, &'a Name>,
}

impl<'a> Model for FileTable<'a> {
    ghost use Rattle.std.specs.Prelude.{List, map};
    ghost use Rattle.object_changes.specs.NamedFiles.{NamedFile};
    ghost use Rattle.object_changes.specs.Keeping.{kept_file};

    ghost Value = { List NamedFile };

    ghost view = { λ table. map kept_file table.names.entries };
}

impl<'a> FileTable<'a> {
    ghost use Rattle.std.specs.Prelude.{◌≡◌, [], ◌∷◌, OnOk};
    ghost use Rattle.std.specs.Option.{option_map};
    ghost use Rattle.object_changes.specs.NamedFiles.{AddsFiles, told_name};

    /// No files.
    pub fn new(alloc: Global) -> FileTable<'a>
        ensures { result ≡ [] }
    {
        FileTable {
            names: IndexMap::new(alloc),
        }
    }

    /// The name that was told first.
    pub fn first(&self, asked: AskedFile<'_>) -> Option<&'a Name>
        ensures { option_map (λ name. name.now) result
            ≡ told_name self.now asked.entry.asker.now asked.entry.file.now }
    {
        self.names.get(&asked).copied()
    }

    /// Adds a name, unless one was told before.
    pub fn add(&mut self, asked: AskedFile<'a>, name: &'a Name) -> Result<(), NoMemory>
        ensures { OnOk result (AddsFiles self.old self.new
            (record {
              asker = asked.entry.asker.now;
              file = asked.entry.file.now;
              name = name.now;
            } ∷ [])) }
    {
        if self.first(asked).is_some() {
            return Ok(());
        }
        let Ok(_) = self.names.insert(asked, name) else {
            return Err(NoMemory);
        };
        Ok(())
    }
}
