//! Symbols: as words of a file, and as a loader sees them.
//!
//! System V gABI, Symbol Table; Linux Standard Base, Symbol Versioning.

ghost use Rattle.std.specs.Prelude.{◌≡◌, IfOk};

use crate::Name;
use path_text::NoMemory;
use std::alloc::Global;

/// What a reference asks for: an address, a function to call, or a variable to copy into the
/// program.
#[derive(Clone, Copy, PartialEq, Eq, Debug)]
pub enum Class {
    Plain,
    Call,
    Copy,
}

/// The words of a symbol in a file.
///
/// System V gABI, Symbol Table.
#[derive(Clone, Copy, PartialEq, Eq, Debug)]
pub struct RawSym {
    /// The string place of its name.
    pub name: u32,
    /// Binding in the high four bits, type in the low four.
    pub info: u8,
    /// Visibility in the low two bits.
    pub other: u8,
    /// The section that it is defined in, or one of the names that begin `SHN_`.
    pub section: u16,
    /// Its value, mostly an address.
    pub value: u64,
}

/// The version of a symbol by its version index: 0, 1, or 2 and more.
#[derive(Drop)]
pub enum Ver {
    Local,
    Global,
    Named { index: u16, name: Name },
}

impl Ver {
    /// The same version.
    pub fn copy(&self, alloc: Global) -> Result<Self, NoMemory>
        ensures { IfOk result (λ version. version ≡ self.now) }
    {
        Ok(match self {
            Ver::Local => Ver::Local,
            Ver::Global => Ver::Global,
            Ver::Named { index, name } => Ver::Named {
                index: *index,
                name: name.copy(alloc)?,
            },
        })
    }
}

/// A symbol as a loader sees it. Its place in its object's list is the symbol index.
#[derive(Drop)]
pub struct Sym {
    pub name: Name,
    pub version: Ver,
    /// Whether it is a definition that is not the default of its name.
    pub hidden: bool,
    /// Whether it has a section.
    pub defined: bool,
    /// Whether it has a value that a reference can bind to.
    pub value_set: bool,
    /// Of the names that begin `STB_`.
    pub binding: u8,
    /// Of the names that begin `STT_`.
    pub kind: u8,
    /// Of the names that begin `STV_`.
    pub visibility: u8,
}
