//! Names given to bundled libraries, one after the other.
//!
//! Said in `specs/Layouts.antt`.

ghost use Rattle.std.specs.Prelude.{◌≡◌, IfOk, OnOk, bytes_eq};
ghost use Rattle.indexmap.specs.IndexSet.{insert_key};
ghost use Rattle.name_layout.specs.Layouts.{AreNames, HasName, IsFirstFree, given_names, opened_name};
ghost use Rattle.name_layout.specs.Sets.{HasNames};
ghost use Rattle.name_layout.specs.Taken.{AreTried};

use crate::free_names::first_free;
use crate::keys::member_key;
use crate::name_sets::NameSet;
use crate::opened_names::OpenedNames;
use lib_closure::Member;
use load_model::{Face, List, Name, NoMemory};
use std::alloc::Global;

/// The names that are taken, and from which candidate on each key is to be tried.
#[derive(Drop)]
pub struct Taken {
    pub names: NameSet,
    pub keys: NameSet,
    /// By the place of the key: the candidates before this one are not free.
    pub starts: Vec<u32>,
}

/// The names of the bundled libraries, in order.
pub fn names_in_order(
    alloc: Global,
    faces: &[Face],
    opened: &OpenedNames<'_>,
) -> Result<List<Name>, NoMemory>
    ensures { IfOk result (λ layout. AreNames faces.now opened.now.runs.now
        opened.now.libs.split.now opened.now.names.now layout) }
{
    let mut taken = Taken::of(alloc, opened)?;
    let mut layout = List::new(alloc);
    for lib in opened.libs.split.libs.as_slice() {
        let name = name_of(alloc, faces, opened, &mut taken, lib)?;
        taken.take(alloc, &opened.listed, &name)?;
        layout.push(name)?;
    }
    Ok(layout)
}

/// The names under which bundled libraries are opened.
#[tactic(auto, unfolding(crate::specs::Layouts::given_names))]
fn given_names(alloc: Global, opened: &OpenedNames<'_>) -> Result<NameSet, NoMemory>
    ensures { IfOk result (λ set. HasNames set (given_names opened.now.runs.now
        opened.now.libs.split.now)) }
{
    let mut given = NameSet::new(alloc);
    for name in &opened.bundled {
        given.add(alloc, name.name.as_bytes())?;
    }
    Ok(given)
}

/// The name of a bundled library: the one under which it is opened, or else one that is not taken.
fn name_of(
    alloc: Global,
    faces: &[Face],
    opened: &OpenedNames<'_>,
    taken: &mut Taken,
    lib: &Member,
) -> Result<Name, NoMemory>
    requires { AreTried opened.now.listed taken.old }
    ensures name { IfOk result (λ name. HasName faces.now opened.now.runs.now
        opened.now.libs.split.now opened.now.listed taken.old.names lib.now name
        (opened_name opened.now.runs.now lib.now)) }
    ensures tried { OnOk result (AreTried opened.now.listed taken.new) }
    ensures names { OnOk result (taken.new.names ≡ taken.old.names) }
{
    match opened.first_of_root(lib.id.as_bytes()) {
        Some(first) => first.name.copy(alloc),
        None => taken.next_free(alloc, &opened.listed, member_key(faces, lib)),
    }
}

impl Taken {
    /// The names under which bundled libraries are opened; no key was tried yet.
    fn of(alloc: Global, opened: &OpenedNames<'_>) -> Result<Taken, NoMemory>
        ensures names { IfOk result (λ taken. HasNames taken.names
            (given_names opened.now.runs.now opened.now.libs.split.now)) }
        ensures tried { IfOk result (λ taken. AreTried opened.now.listed taken) }
    {
        Ok(Taken {
            names: given_names(alloc, opened)?,
            keys: NameSet::new(alloc),
            starts: Vec::new(alloc),
        })
    }

    /// The first free candidate of a key.
    fn next_free(&mut self, alloc: Global, listed: &NameSet, key: &[u8]) -> Result<Name, NoMemory>
        requires { AreTried listed.now self.old }
        ensures first { IfOk result (λ name. IsFirstFree listed.now self.old.names key.now name) }
        ensures tried { OnOk result (AreTried listed.now self.new) }
        ensures names { OnOk result (self.new.names ≡ self.old.names) }
    {
        match self.keys.position(key) {
            Some(place) => {
                let free = first_free(alloc, listed, &self.names, key, self.starts[place])?;
                self.starts[place] = free.number;
                Ok(free.name)
            }
            None => {
                let free = first_free(alloc, listed, &self.names, key, 0)?;
                self.keys.add(alloc, key)?;
                match self.starts.push(free.number) {
                    Ok(()) => Ok(free.name),
                    Err(_) => Err(NoMemory),
                }
            }
        }
    }

    /// Takes a name.
    fn take(&mut self, alloc: Global, listed: &NameSet, name: &Name) -> Result<(), NoMemory>
        requires { AreTried listed.now self.old }
        ensures tried { OnOk result (AreTried listed.now self.new) }
        ensures names { OnOk result (self.new.names ≡ insert_key bytes_eq self.old.names name.now) }
    {
        self.names.add(alloc, name.as_bytes())
    }
}
