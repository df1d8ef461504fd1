//! Why there is no list of files, or why they are not all written.

use load_model::NoMemory;
use path_text::Rel;

/// Why items are no list of files: the first target that is refused, or want of memory.
#[derive(Drop)]
pub enum ListStop {
    /// A data file lies in the folder of bundled libraries itself.
    TargetInLib(Rel),
    /// An earlier item has the same path, or a folder of the one is the path of the other.
    TargetClash(Rel),
    NoMemory,
}

impl From<NoMemory> for ListStop {
    fn from(_: NoMemory) -> ListStop {
        ListStop::NoMemory
    }
}

/// Why files are not all written: a call of the tree failed, or one of the folder.
#[derive(Clone, Copy, PartialEq, Eq, Debug)]
pub enum CopyStop {
    Read,
    Write,
}
