//! The names by which objects are known, each with the first object that is known by it.
//!
//! A name is found by its hash, and not by a walk over the objects. What is learnt of a name is
//! said in `specs/Known.antt`.

ghost use Rattle.std.specs.Prelude.{◌≡◌, [], OnErr, OnOk, bytes_eq};
ghost use Rattle.load_model.specs.LoadList.{is_named};
ghost use Rattle.load_requests.specs.Known.{IsLearnt, IsMadeFirst, first_known};

use indexmap::IndexMap;
use load_model::{Face, Name};
use path_text::NoMemory;
use std::alloc::Global;
use std::marker::Model;

/// For each name the number of the first object that is known by it.
#[derive(Drop)]
pub struct Known {
    firsts: IndexMap<Vec<u8>, usize>,
}

impl Model for Known {
    ghost use Rattle.std.specs.Prelude.{List, ℕ, map, vec_items};

    ghost Value = { List (List ℕ × ℕ) };

    ghost view = { λ known. map (λ e. (vec_items e.0, e.1)) known.firsts.entries };
}

impl Known {
    /// No name.
    pub fn new(alloc: Global) -> Self
        ensures { result ≡ [] }
    {
        Known {
            firsts: IndexMap::new(alloc),
        }
    }

    /// The first object that is known by the name.
    pub fn first(&self, name: &Name) -> Option<usize>
        ensures { result ≡ first_known name.now self.now }
    {
        self.firsts.get(name.as_bytes()).copied()
    }

    /// Adds a name by which an object is known. An object before it that is known by the name
    /// stays the first. Where memory is refused, all names stay as they were.
    pub fn learn(&mut self, alloc: Global, name: &Name, number: usize) -> Result<(), NoMemory>
        ensures learnt { OnOk result (IsLearnt (bytes_eq name.now) number self.old self.new) }
        ensures err { OnErr result (self.new ≡ self.old) }
    {
        match self.first(name) {
            Some(first) if first <= number => Ok(()),
            _ => self.put(alloc, name, number),
        }
    }

    /// Adds the soname of an object, if it has one.
    pub fn learn_soname(
        &mut self,
        alloc: Global,
        face: &Face,
        number: usize,
    ) -> Result<(), NoMemory>
        ensures learnt { OnOk result (IsLearnt (is_named face.now.soname) number self.old
            self.new) }
        ensures err { OnErr result (self.new ≡ self.old) }
    {
        match &face.soname {
            Some(soname) => self.learn(alloc, soname, number),
            None => Ok(()),
        }
    }

    /// Makes an object the first that is known by the name.
    fn put(&mut self, alloc: Global, name: &Name, number: usize) -> Result<(), NoMemory>
        ensures first { OnOk result (IsMadeFirst name.now number self.old self.new) }
        ensures err { OnErr result (self.new ≡ self.old) }
    {
        let name = Vec::from_slice(alloc, name.as_bytes())?;
        let Ok(_) = self.firsts.insert(name, number) else {
            return Err(NoMemory);
        };
        Ok(())
    }
}
