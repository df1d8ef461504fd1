//! Why a load list stops.

use load_model::Name;
use path_text::{Abs, NoMemory};
use search_paths::SearchStop;
use std::alloc::AllocError;

/// Why a program is not loaded, each with its evidence; `by` is the object that asks.
#[derive(Drop)]
pub enum LoadStop {
    /// No file for this machine lies at the path of the program.
    NoProgram(Abs),
    MissingLibrary { name: Name, by: Abs },
    /// A needed name has a slash and does not begin with one.
    RelativeNeed { name: Name, by: Abs },
    /// A needed name holds a `$`.
    TokenInNeed { name: Name, by: Abs },
    /// The list would get more objects than it may have: the path of the program.
    TooManyObjects(Abs),
    Search(SearchStop),
    NoMemory,
}

impl From<NoMemory> for LoadStop {
    ghost use Rattle.std.specs.Prelude.{◌≡◌};
    ghost use Rattle.load_requests.specs.declared.stops.LoadStop.{LoadStop};
    ghost use Rattle.load_requests.specs.declared.stops.LoadStop.TheVariants.{NoMemory as Exhausted};

    ghost from_gives = { λ _ stop. stop ≡ Exhausted };

    fn from(_error: NoMemory) -> Self {
        LoadStop::NoMemory
    }
}
