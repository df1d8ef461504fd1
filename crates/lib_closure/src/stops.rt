//! Why the objects of a build are not split, as `specs/Clashes.antt` says.

use load_model::Name;
use path_text::Abs;

/// The first clash of a build, with its evidence, or want of memory.
#[derive(Drop)]
pub enum ClosureStop {
    /// A program has no interpreter: its path.
    NoInterpreter(Abs),
    /// The interpreter of a program is not on the host list: the path of the program.
    InterpreterUnlisted(Abs),
    /// A program is loaded as a library, or versions are asked of it: its path.
    ProgramNeeded(Abs),
    /// Two host libraries have one key: the key, and both paths.
    HostNameClash(Name, Abs, Abs),
    /// A host library has a run path: its path.
    HostRpath(Abs),
    /// A host library needs a bundled library: its path, and the need.
    HostNeedsUnlisted(Abs, Name),
    /// A host library needs another under a name that is not its key: its path, and the need.
    HostAlias(Abs, Name),
    /// A need or a file of versions of a bundled library goes to two objects: its path, the name,
    /// and the paths of both objects.
    SplitNeed(Abs, Name, Abs, Abs),
    NoMemory,
}
