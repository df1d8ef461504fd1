//! What a loader loads and binds: load lists, definitions and bindings, as plain types.

ghost use Rattle.std.specs.Prelude.{◌≡◌, ◌<◌, IsSome, Some, length};
ghost use Rattle.load_model.specs.Bindings.{symbol_at};
ghost use Rattle.load_model.specs.Runs.{IsRunOver, face_at};

use crate::{Class, Face, List, Name, Sym, Text};
use path_text::Abs;

/// An object of a load list. The program is its own loader; another object's loader is the object
/// whose request first brought it. The start is phase 0, and each opened name is a phase, from 1
/// on.
#[derive(Drop)]
pub struct Obj {
    /// The path under which it was found.
    pub path: Abs,
    /// Which file it is.
    pub id: Name,
    /// The place of its face in the table of faces.
    pub face: u32,
    pub loader: u32,
    pub phase: u32,
}

/// A load list: the objects in load order and where their needs went.
#[derive(Drop)]
pub struct Run {
    pub objs: List<Obj>,
    /// For each object the numbers of the objects that its needs went to.
    pub targets: List<List<u32>>,
    /// The number of objects of the start phase.
    pub global: u32,
    /// The names that the program opened, in order.
    pub opens: List<Name>,
    /// For each opened name the number of the object that it went to.
    pub roots: List<u32>,
    /// For each opened name its local list.
    pub locals: List<List<u32>>,
}

impl Run {
    /// What a loader sees of the object of number `obj`; `faces` is the table of the run.
    pub fn face_of<'a>(&self, faces: &'a [Face], obj: u32) -> &'a Face
        requires run { IsRunOver faces.now self.now }
        requires obj { obj < length self.now.objs }
        ensures { face_at faces.now self.now obj ≡ Some result.now }
    {
        &faces[self.objs.as_slice()[obj as usize].face as usize]
    }

    /// The symbol of index `sym` of the object of number `obj`.
    pub fn symbol_of<'a>(&self, faces: &'a [Face], obj: u32, sym: u32) -> &'a Sym
        requires run { IsRunOver faces.now self.now }
        requires symbol { IsSome (symbol_at faces.now self.now obj sym) }
        ensures { symbol_at faces.now self.now obj sym ≡ Some result.now }
    {
        let face = &faces[self.objs.as_slice()[obj as usize].face as usize];
        &face.syms.as_slice()[sym as usize]
    }
}

/// A definition: a symbol of an object of a load list.
#[derive(Clone, Copy, PartialEq, Eq, Debug)]
pub struct Def {
    pub obj: u32,
    pub sym: u32,
}

/// What a reference of one class binds to, if to anything.
#[derive(Clone, Copy, PartialEq, Eq, Debug)]
pub struct Bind {
    pub obj: u32,
    pub sym: u32,
    pub class: Class,
    pub to: Option<Def>,
}

/// A load list with the bindings of all its references.
#[derive(Drop)]
pub struct Replay {
    pub run: Run,
    pub binds: List<Bind>,
}

/// A part of a new file: bytes of the old one, new bytes, or zeros.
#[derive(Drop)]
pub enum Piece {
    Old { at: u64, len: u64 },
    New(Text),
    Zeros(u64),
}
