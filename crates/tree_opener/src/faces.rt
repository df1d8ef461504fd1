//! A face with the hash tables by which names are looked up in its file.

ghost use Rattle.std.specs.Prelude.{◌≡◌};
ghost use Rattle.load_model.specs.Bindings.{offered_by};

use elf_face::Loaded;
use std::marker::Model;

/// The face of a file. It has hash tables that offer what it offers.
#[derive(Drop)]
pub struct FaceWithTables {
    loaded: Loaded,
}

impl Model for FaceWithTables {
    ghost use Rattle.std.specs.Prelude.{◌≡◌};
    ghost use Rattle.load_model.specs.Bindings.{offered_by};
    ghost use Rattle.load_model.specs.declared.faces.Face.{Face};

    ghost Value = { Face };

    ghost view = { λ f. f.loaded.face };

    ghost invariant = { λ f. f.loaded.tables.offered ≡ offered_by f.loaded.face };
}

impl FaceWithTables {
    /// A face and tables that were read from one file.
    pub fn of(loaded: Loaded) -> FaceWithTables
        requires { loaded.tables.offered ≡ offered_by loaded.face }
        ensures { result ≡ loaded.face }
    {
        FaceWithTables { loaded }
    }

    /// The machine of the file.
    pub fn machine(&self) -> u16
        ensures { result ≡ self.now.machine }
    {
        self.loaded.face.machine
    }

    /// The face and the tables apart.
    pub fn into_loaded(self) -> Loaded
        ensures face { result.face ≡ self }
        ensures tables { result.tables.offered ≡ offered_by self }
    {
        self.loaded
    }
}
