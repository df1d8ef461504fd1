//! Why a program has no run.

use load_model::Name;
use load_order::LoadStop;
use path_text::Abs;

/// Why a program is not loaded, or its versions are not met; `by` is the object that asks.
#[derive(Drop)]
pub enum ReplayStop {
    Load(LoadStop),
    /// The file of an ask is not loaded.
    Unloaded { by: Abs, file: Name },
    /// The file of an ask has version definitions, and lacks this one.
    Unsatisfied { by: Abs, file: Name, version: Name },
    NoMemory,
}
