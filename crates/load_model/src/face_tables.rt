//! Faces in the order in which files were read.

ghost use Rattle.std.specs.Prelude.{◌≡◌, ◌∷◌, [], ◌++◌, IfOk, OnErr, OnOk, length};
ghost use Rattle.load_model.specs.Opening.{AreFew, IsFew};

use crate::{Face, List};
use path_text::NoMemory;
use std::alloc::Global;
use std::marker::Model;

/// The faces that were read so far, each with symbols and asks that numbers of 32 bits count, as
/// they do the faces.
#[derive(Drop)]
pub struct FaceTable {
    faces: List<Face>,
}

impl Model for FaceTable {
    ghost use Rattle.std.specs.Prelude.{List as Sequence};
    ghost use Rattle.load_model.specs.declared.faces.Face.{Face};
    ghost use Rattle.load_model.specs.Opening.{AreFew};

    ghost Value = { Sequence Face };

    ghost view = { λ table. table.faces };

    ghost invariant = { λ table. AreFew table.faces };
}

impl FaceTable {
    /// No faces yet.
    pub fn new(alloc: Global) -> FaceTable
        ensures { result ≡ [] }
    {
        FaceTable {
            faces: List::new(alloc),
        }
    }

    /// The faces.
    pub fn as_slice(&self) -> &[Face]
        ensures faces { result.now ≡ self.now }
        ensures few { AreFew self.now }
    {
        self.faces.as_slice()
    }

    /// Gives all faces away.
    pub fn take(&mut self, alloc: Global) -> FaceTable
        ensures faces { result ≡ self.old }
        ensures none { self.new ≡ [] }
    {
        std::mem::replace(self, FaceTable::new(alloc))
    }

    /// Adds a face, and gives its place. A table that is full is want of memory.
    pub fn add(&mut self, face: Face) -> Result<u32, NoMemory>
        requires { IsFew face }
        ensures place { IfOk result (λ place. place ≡ length self.old) }
        ensures ok { OnOk result (self.new ≡ self.old ++ face ∷ []) }
        ensures err { OnErr result (self.new ≡ self.old) }
    {
        let place = self.faces.as_slice().len();
        if place as u64 + 1 >= 1 << 32 {
            return Err(NoMemory);
        }
        self.faces.push(face)?;
        Ok(place as u32)
    }
}
