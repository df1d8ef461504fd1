//! The texts that files get, as `specs/Changing.antt` says.

use elf_rewrite::Change;
use load_model::List;

/// A change for each program and each bundled library of a split, in its order.
#[derive(Drop)]
pub struct Changes {
    pub programs: List<Change>,
    pub libs: List<Change>,
}
