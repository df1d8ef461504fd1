//! What opens files for a loader: each path by its kind, each object by its face.
//!
//! ld.so(8). Kinds are said in `specs/World.antt`, faces in `specs/Faces.antt`.

use crate::{Face, Flaw, Name};
use path_text::Abs;
use std::alloc::Global;

/// What lies at a path. An object is named by its identity and by the place of its face in the
/// table of the opener.
#[derive(Drop)]
pub enum Opened {
    Absent,
    Other,
    Object { id: Name, face: u32 },
}

/// Why a path was not opened: a read failed, the file is damaged, or memory was refused.
#[derive(Drop)]
pub enum OpenFault {
    Read,
    Damaged { path: Abs, flaw: Flaw },
    NoMemory,
}

/// What opens files, and keeps their faces in a table that only grows.
///
/// An opener may tell the world that it reads, and then its answers are those of this world. It
/// always counts its faults.
pub trait Opener {
    ghost use Rattle.load_model.specs.Opening.{IsOpened, OnlyGrew, OpenerView, AreFew};

    // what it tells: its world, its machine, its faces and its faults
    ghost seen: { Self → OpenerView };

    /// What is at the path, by its kind.
    fn open(&mut self, alloc: Global, path: &Abs) -> Result<Opened, OpenFault>
        ensures opened { IsOpened (seen self.old) (seen self.new) path.now result }
        ensures grew { OnlyGrew (seen self.old) (seen self.new) };

    /// The table of faces.
    fn faces(&self) -> &[Face]
        ensures table { result.now ≡ (seen self.now).faces }
        ensures few { AreFew result.now };

    ghost use Rattle.std.specs.Prelude.{◌≡◌};
}
