//! Lists that are passed on whole.

ghost use Rattle.std.specs.Prelude.{◌≡◌, [], ◌∷◌, ◌++◌, IfOk, OnErr, OnOk};

use crate::Name;
use path_text::NoMemory;
use std::alloc::Global;
use std::marker::Model;

/// A list that grows at its end.
#[derive(Drop)]
pub struct List<T> {
    items: Vec<T>,
}

impl<T> Model for List<T> {
    ghost use Rattle.std.specs.Prelude.{List as Sequence};
    ghost use Rattle.std.specs.Coded.{coded_list};

    ghost Value = { Sequence T };

    ghost coded = { coded_list T.code };

    ghost view = { λ list. list.items.items };
}

impl<T> List<T> {
    /// An empty list, which takes no memory yet.
    pub fn new(alloc: Global) -> List<T>
        ensures { result ≡ [] }
    {
        List {
            items: Vec::new(alloc),
        }
    }

    /// Adds a value at the end. A refused push leaves the list as it was.
    pub fn push(&mut self, value: T) -> Result<(), NoMemory>
    where
        T: Drop,
        ensures ok { OnOk result (self.new ≡ self.old ++ value ∷ []) }
        ensures err { OnErr result (self.new ≡ self.old) }
    {
        match self.items.push(value) {
            Ok(()) => Ok(()),
            Err(_) => Err(NoMemory),
        }
    }

    /// The values, in order.
    pub fn as_slice(&self) -> &[T]
        ensures { result.now ≡ self.now }
    {
        self.items.as_slice()
    }

    /// The list of these values.
    pub fn from_vec(items: Vec<T>) -> List<T>
        ensures { result ≡ items.items }
    {
        List { items }
    }

    /// The values, to be taken out.
    pub fn into_vec(self) -> Vec<T>
        ensures { result.items ≡ self }
    {
        self.items
    }
}

impl List<Name> {
    /// The same names.
    pub fn copy(&self, alloc: Global) -> Result<Self, NoMemory>
        ensures { IfOk result (λ names. names ≡ self.now) }
    {
        let mut names = List::new(alloc);
        'copy: for name in self.as_slice() {
            names.push(name.copy(alloc)?)?;
        }
        Ok(names)
    }
}
