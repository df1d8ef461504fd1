//! Under which names the objects of a load list are known, and from which phase on.
//!
//! Said in `specs/Known.antt`. In a load list each name is known for one object, or for the first
//! of some, from its first phase on; where a list is otherwise, what is left is kept beside.

ghost use Rattle.std.specs.Prelude.{◌≡◌};
ghost use Rattle.version_files.specs.Known.{known_by};
ghost use Rattle.load_model.specs.LoadList.{lesser_of};

use load_model::{Name, NoMemory};
use std::alloc::Global;
use text_sets::TextSet;

/// A name by which an object is known at the end of a phase, and of all later ones.
#[derive(Clone, Copy)]
pub struct Known<'a> {
    pub name: &'a Name,
    pub target: u32,
    pub since: u32,
}

/// For each name the entry that was found first, and those that it does not settle.
#[derive(Drop)]
pub struct KnownNames<'a> {
    pub names: TextSet,
    pub firsts: Vec<Known<'a>>,
    pub others: Vec<Known<'a>>,
}

impl<'a> KnownNames<'a> {
    ghost use Rattle.std.specs.Prelude.{◌≡◌, ◌∷◌, ◌++◌, [], ℕ, List, None, OnOk, map};
    ghost use Rattle.std.specs.Option.{option_map};
    ghost use Rattle.std.specs.List.{find};
    ghost use Rattle.std.specs.Str.{bytes_eq};
    ghost use Rattle.version_files.specs.Known.{KnownName, first_known_by, known_by};
    ghost use Rattle.load_model.specs.LoadList.{lesser_of};
    ghost use Rattle.version_files.specs.Telling.{AreNamed, known_as, told};

    /// No names.
    pub fn new(alloc: Global) -> KnownNames<'a>
        ensures named { AreNamed result }
        ensures told { (phase : ℕ) (name : List ℕ) → told result phase name ≡ None }
    {
        KnownNames {
            names: TextSet::new(alloc),
            firsts: Vec::new(alloc),
            others: Vec::new(alloc),
        }
    }

    /// Adds a name of an object.
    pub fn add(&mut self, alloc: Global, known: Known<'a>) -> Result<(), NoMemory>
        requires { AreNamed self.old }
        ensures named { OnOk result (AreNamed self.new) }
        ensures told { OnOk result ((phase : ℕ) (name : List ℕ) → told self.new phase name
            ≡ lesser_of (told self.old phase name) (known_by phase name (known_as known.entry))) }
    {
        match self.first(known.name) {
            None => self.add_first(alloc, known),
            Some(first) => {
                if first.since <= known.since && first.target <= known.target {
                    return Ok(());
                }
                self.add_other(known)
            }
        }
    }

    /// The first entry of a name.
    fn first(&self, name: &Name) -> Option<Known<'a>>
        requires { AreNamed self.now }
        ensures { option_map known_as result
            ≡ find (λ (f : KnownName). bytes_eq name.now f.name)
            (map known_as self.now.firsts.items) }
    {
        match self.names.position(name.as_bytes()) {
            Some(place) => self.firsts.get(place).copied(),
            None => None,
        }
    }

    /// Adds the first entry of a name.
    fn add_first(&mut self, alloc: Global, known: Known<'a>) -> Result<(), NoMemory>
        requires named { AreNamed self.old }
        requires none { find (λ (f : KnownName). bytes_eq known.name.now f.name)
            (map known_as self.old.firsts.items) ≡ None }
        ensures named { OnOk result (AreNamed self.new) }
        ensures told { OnOk result ((phase : ℕ) (name : List ℕ) → told self.new phase name
            ≡ lesser_of (told self.old phase name) (known_by phase name (known_as known.entry))) }
    {
        self.names.add(alloc, known.name.as_bytes())?;
        match self.firsts.push(known) {
            Ok(()) => Ok(()),
            Err(_) => Err(NoMemory),
        }
    }

    /// Adds an entry that the first one of its name does not settle.
    fn add_other(&mut self, known: Known<'a>) -> Result<(), NoMemory>
        requires named { AreNamed self.old }
        ensures named { OnOk result (AreNamed self.new) }
        ensures told { OnOk result ((phase : ℕ) (name : List ℕ) → told self.new phase name
            ≡ lesser_of (told self.old phase name) (known_by phase name (known_as known.entry))) }
    {
        match self.others.push(known) {
            Ok(()) => Ok(()),
            Err(_) => Err(NoMemory),
        }
    }

    /// The object that is known by a name at the end of a phase, if any.
    #[tactic(auto, unfolding(crate::specs::Telling::told))]
    pub fn at(&self, phase: u32, name: &Name) -> Option<u32>
        requires { AreNamed self.now }
        ensures { result ≡ told self.now phase name.now }
    {
        let first = match self.first(name) {
            Some(first) => known_by(phase, name, &first),
            None => None,
        };
        let mut found = first;
        for other in &self.others {
            found = lesser_of(found, known_by(phase, name, other));
        }
        found
    }
}

/// The object that is known by the name at the end of the phase, if it is this one.
fn known_by(phase: u32, name: &Name, known: &Known<'_>) -> Option<u32>
    ensures { result ≡ known_by phase name.now (record {
      name = known.now.name.now;
      target = known.now.target;
      since = known.now.since;
    }) }
{
    if name.as_bytes() == known.name.as_bytes() && known.since <= phase {
        Some(known.target)
    } else {
        None
    }
}

/// The lesser of two numbers, where there are any.
fn lesser_of(one: Option<u32>, other: Option<u32>) -> Option<u32>
    ensures { result ≡ lesser_of one other }
{
    match (one, other) {
        (Some(number), Some(second)) => Some(number.min(second)),
        (None, _) => other,
        (_, None) => one,
    }
}
