//! Files of a machine, as `specs/World.antt` takes them.

use crate::{Name, Text};
use path_text::Abs;

/// A file of a world: where it lies, which file it is, and what it holds. Two paths of one identity
/// are one file.
#[derive(Drop)]
pub struct WorldFile {
    pub path: Abs,
    pub id: Name,
    pub bytes: Text,
}
