//! Why a program is not loaded.

use crate::{Flaw, Name};
use path_text::Abs;

/// Why a load list stops, or its versions are not met: each with its evidence.
#[derive(Drop)]
pub enum LoadRefusal {
    /// No file for this machine lies at the path of the program.
    NoProgram(Abs),
    /// A file has a flaw.
    Damaged(Abs, Flaw),
    /// A needed name has a slash and does not begin with one: the name, and the object that asks.
    RelativeNeed(Name, Abs),
    /// A needed name holds a `$`: the name, and the object that asks.
    TokenInNeed(Name, Abs),
    /// An item of a run path is no absolute path.
    RelativeItem(Name),
    /// An item of a run path names a token that is not set.
    TokenUnset(Name),
    /// No candidate is an object: the name, and the object that asks.
    MissingLibrary(Name, Abs),
    /// The list would get more objects than it may have: the path of the program.
    TooManyObjects(Abs),
    /// The file of an ask is not loaded: the object that asks, and the file.
    VersionFileUnloaded(Abs, Name),
    /// The file of an ask lacks the version: the object that asks, the file, and the version.
    UnsatisfiedVersion(Abs, Name, Name),
}
