//! What an object asks of other files.
//!
//! Linux Standard Base, Symbol Versioning. Read as `specs/VersionTables.antt` says.

ghost use Rattle.std.specs.Prelude.{◌≡◌, IfOk};

use crate::Name;
use path_text::NoMemory;
use std::alloc::Global;

/// A version that an object asks of a file.
#[derive(Drop)]
pub struct Ask {
    pub file: Name,
    pub name: Name,
    /// Whether the version may be missing.
    pub weak: bool,
}

impl Ask {
    /// The same ask.
    pub fn copy(&self, alloc: Global) -> Result<Self, NoMemory>
        ensures { IfOk result (λ ask. ask ≡ self.now) }
    {
        Ok(Ask {
            file: self.file.copy(alloc)?,
            name: self.name.copy(alloc)?,
            weak: self.weak,
        })
    }
}
