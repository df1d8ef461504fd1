//! What a loader sees of a file, as `specs/Faces.antt` says.

ghost use Rattle.std.specs.Prelude.{◌≡◌, []};
ghost use Rattle.load_model.specs.Opening.{IsFew};

use crate::{Ask, List, Name, Sym};
use std::alloc::Global;

/// What a loader sees of a file.
#[derive(Drop)]
pub struct Face {
    pub machine: u16,
    /// The path of the program interpreter.
    pub interp: Option<Name>,
    pub soname: Option<Name>,
    /// The names of the needed libraries, in order.
    pub needs: List<Name>,
    pub rpath: Option<Name>,
    pub runpath: Option<Name>,
    /// Whether its references are looked up in itself first.
    pub symbolic: bool,
    /// Its symbols by index.
    pub syms: List<Sym>,
    /// Whether it has a table of version indexes.
    pub versioned: bool,
    /// The names of its version definitions, in order.
    pub defs: List<Name>,
    /// The versions that it asks of other files, in order.
    pub asks: List<Ask>,
}

impl Face {
    /// The face of a file of this machine that names nothing and has nothing.
    pub fn empty(alloc: Global, machine: u16) -> Face
        ensures few { IsFew result }
        ensures machine { result.machine ≡ machine }
        ensures needs { result.needs ≡ [] }
        ensures syms { result.syms ≡ [] }
    {
        Face {
            machine,
            interp: None,
            soname: None,
            needs: List::new(alloc),
            rpath: None,
            runpath: None,
            symbolic: false,
            syms: List::new(alloc),
            versioned: false,
            defs: List::new(alloc),
            asks: List::new(alloc),
        }
    }
}
