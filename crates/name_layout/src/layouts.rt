//! The names of bundled libraries, as `specs/Layouts.antt` says.

use load_model::{List, Name};

/// The file names of the bundled libraries of a split, in its order.
#[derive(Drop)]
pub struct Layout {
    pub libs: List<Name>,
}
