//! What is loaded so far.

ghost use Rattle.std.specs.Prelude.{◌≡◌, ◌<◌, [], IfOk, OnOk, Some, length, position, slice_get};
ghost use Rattle.std.specs.Option.{option_map};
ghost use Rattle.std.specs.Str.{bytes_eq};
ghost use Rattle.load_requests.specs.Asking.{IsPushed};
ghost use Rattle.load_requests.specs.Known.{AreIds};

use crate::known::Known;
use load_model::{Face, List, Name, Obj};
use path_text::{Abs, NoMemory};
use std::alloc::Global;

/// The objects so far, the names by which they are known, which files they are, where the needs of
/// the first of them went, and the number of the phase.
#[derive(Drop)]
pub struct Loading {
    pub objs: List<Obj>,
    pub known: Known,
    /// The identity of each file, with the first object that is this file.
    pub ids: Known,
    pub targets: List<List<u32>>,
    pub phase: u32,
}

impl Loading {
    /// No object, in the start phase.
    pub(crate) fn new(alloc: Global) -> Self
        ensures objs { result.objs ≡ [] }
        ensures known { result.known ≡ [] }
        ensures ids { result.ids ≡ [] }
        ensures targets { result.targets ≡ [] }
        ensures phase { result.phase ≡ 0 }
    {
        Loading {
            objs: List::new(alloc),
            known: Known::new(alloc),
            ids: Known::new(alloc),
            targets: List::new(alloc),
            phase: 0,
        }
    }

    /// How many objects there are.
    pub fn count(&self) -> usize
        ensures { result ≡ length self.now.objs }
    {
        self.objs.as_slice().len()
    }

    /// A copy of the path of an object.
    pub fn path_of(&self, alloc: Global, number: u32) -> Result<Abs, NoMemory>
        requires { number < length self.now.objs }
        ensures { IfOk result (λ path. option_map (λ x. x.path) (slice_get self.now.objs number)
            ≡ Some path) }
    {
        self.objs.as_slice()[number as usize].path.copy(alloc)
    }

    /// The first object that is the file of this identity.
    pub fn with_id(&self, id: &Name) -> Option<usize>
        requires { AreIds self.now.ids self.now.objs }
        ensures { result ≡ position (λ x. bytes_eq x.id id.now) self.now.objs }
    {
        self.ids.first(id)
    }

    /// Adds an object, which is known by its soname, and its identity.
    pub(crate) fn push(&mut self, alloc: Global, face: &Face, object: Obj) -> Result<(), NoMemory>
        ensures { OnOk result (IsPushed face.now object self.old self.new) }
    {
        let number = self.count();
        self.known.learn_soname(alloc, face, number)?;
        self.ids.learn(alloc, &object.id, number)?;
        self.objs.push(object)
    }
}
