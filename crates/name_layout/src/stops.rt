//! Why bundled libraries get no names, as `specs/Layouts.antt` says.

use load_model::{Name, NoMemory};
use path_text::Abs;

/// The first name that is refused, with its evidence, or want of memory.
#[derive(Drop)]
pub enum NameStop {
    /// A host library is opened under another name than its key: the name, and the key.
    OpenAlias(Name, Name),
    /// A bundled library is opened under a name of the host list.
    OpenNameOnHostList(Name),
    /// A bundled library is opened under two names: its path, and both names.
    TwoOpenNames(Abs, Name, Name),
    /// Two bundled libraries are opened under one name: the name, and both paths.
    NameClash(Name, Abs, Abs),
    /// The key of a bundled library is no file name.
    BadFileName(Name),
    NoMemory,
}

impl From<NoMemory> for NameStop {
    fn from(_: NoMemory) -> NameStop {
        NameStop::NoMemory
    }
}
