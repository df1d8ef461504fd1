//! Why there is no directory.

ghost use Rattle.std.specs.Prelude.{◌≡◌};
ghost use Rattle.build_plan.specs.declared.stops.BuildStop.TheVariants.{NoMemory as Exhausted};

use path_text::NoMemory;
use refusals::Refusal;
use std::alloc::AllocError;

/// Why there is no directory: the first refusal, a read of the tree that failed, or want of memory.
#[derive(Drop)]
pub enum BuildStop {
    Refused(Refusal),
    Read,
    NoMemory,
}

impl From<NoMemory> for BuildStop {
    ghost from_gives = { λ _ stop. stop ≡ Exhausted };

    fn from(_error: NoMemory) -> Self {
        BuildStop::NoMemory
    }
}

impl From<AllocError> for BuildStop {
    ghost from_gives = { λ _ stop. stop ≡ Exhausted };

    fn from(_error: AllocError) -> Self {
        BuildStop::NoMemory
    }
}
