//! What a search answers.

use load_model::{Name, OpenFault};
use path_text::{Abs, NoMemory};
use std::alloc::AllocError;

/// The file that a search finds, by the path that decided and the place of its face, or that no
/// candidate is a file.
#[derive(Drop)]
pub enum Hit {
    Found { path: Abs, id: Name, face: u32 },
    Missing,
}

/// Why a search stops.
#[derive(Drop)]
pub enum SearchStop {
    /// An item of a run path is no absolute path.
    RelativeItem(Name),
    /// An item of a run path names a token that is not set.
    TokenUnset(Name),
    Open(OpenFault),
    NoMemory,
}

impl From<NoMemory> for SearchStop {
    ghost use Rattle.std.specs.Prelude.{◌≡◌};
    ghost use Rattle.search_paths.specs.declared.hits.SearchStop.{SearchStop};
    ghost use Rattle.search_paths.specs.declared.hits.SearchStop.TheVariants.{NoMemory as Exhausted};

    ghost from_gives = { λ _ stop. stop ≡ Exhausted };

    fn from(_error: NoMemory) -> Self {
        SearchStop::NoMemory
    }
}

impl From<AllocError> for SearchStop {
    ghost use Rattle.std.specs.Prelude.{◌≡◌};
    ghost use Rattle.search_paths.specs.declared.hits.SearchStop.{SearchStop};
    ghost use Rattle.search_paths.specs.declared.hits.SearchStop.TheVariants.{NoMemory as Exhausted};

    ghost from_gives = { λ _ stop. stop ≡ Exhausted };

    fn from(_error: AllocError) -> Self {
        SearchStop::NoMemory
    }
}
