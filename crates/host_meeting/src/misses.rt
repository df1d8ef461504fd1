//! Why the files of a host are not all found.

use host_list::Difference;
use load_model::NoMemory;

/// A demand that is not met, or why it is not known whether it is.
#[derive(Drop)]
pub enum Miss {
    Differs(Difference),
    Read,
    NoMemory,
}

impl From<NoMemory> for Miss {
    ghost use Rattle.std.specs.Prelude.{◌≡◌};
    ghost use Rattle.host_meeting.specs.declared.misses.Miss.{Miss};
    ghost use Rattle.host_meeting.specs.declared.misses.Miss.TheVariants.{NoMemory as Exhausted};

    ghost from_gives = { λ _ miss. miss ≡ Exhausted };

    fn from(_error: NoMemory) -> Self {
        Miss::NoMemory
    }
}
