ghost use Rattle.std.specs.Prelude.{◌≡◌};
ghost use Rattle.tree_opener.specs.declared.stops.ReadStop.TheVariants.{NoMemory as Exhausted};

use std::alloc::AllocError;

/// Why a file is not read.
#[derive(Drop)]
pub enum ReadStop {
    Failed,
    NoMemory,
}

impl From<AllocError> for ReadStop {
    ghost from_gives = { λ _ stop. stop ≡ Exhausted };

    fn from(_error: AllocError) -> Self {
        ReadStop::NoMemory
    }
}
