//! What a loader is set to.

use crate::{List, Name};
use path_text::Abs;

/// What a loader is set to: the machine number of the files that it loads, the listed directories
/// in order, and the texts of the tokens LIB and PLATFORM where they are set.
#[derive(Drop)]
pub struct Setting {
    pub machine: u16,
    pub dirs: List<Abs>,
    pub lib: Option<Name>,
    pub platform: Option<Name>,
}
