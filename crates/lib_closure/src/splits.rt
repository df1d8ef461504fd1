//! The split of a build, as `specs/Splits.antt` says.

use load_model::{List, Name};
use path_text::Abs;

/// The objects of a build: a program for each load list, and the libraries, each once, in the order
/// in which they were loaded first.
#[derive(Drop)]
pub struct Split {
    pub programs: List<Member>,
    /// The bundled libraries.
    pub libs: List<Member>,
    /// The host libraries.
    pub hosts: List<HostLib>,
}

/// A program or a bundled library: which file it is, where it was found first, and the place of its
/// face.
#[derive(Drop)]
pub struct Member {
    pub id: Name,
    pub path: Abs,
    pub face: u32,
}

/// A host library, with its key.
#[derive(Drop)]
pub struct HostLib {
    pub name: Name,
    pub id: Name,
    pub path: Abs,
    pub face: u32,
}
