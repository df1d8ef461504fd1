//! The files of the libraries of a record on a host.

ghost use Rattle.load_model.specs.Opening.{IsFew};
ghost use Rattle.host_meeting.specs.Sets.{IsSetOf};

use crate::found::FoundLib;
use load_model::{Face, Name};
use path_text::Abs;
use text_sets::TextSet;

/// A file that was found, with its face and the names of the versions that it defines.
#[derive(Drop)]
pub struct FoundFile<'a> {
    pub lib: &'a FoundLib,
    pub face: &'a Face,
    pub versions: TextSet,
    ghost few: { IsFew face.now },
    ghost defines: { IsSetOf face.now.defs versions },
}

/// The file of a library: the path that decided, which file it is, its face, and the names of the
/// versions that it defines, found by their hashes.
#[derive(Clone, Copy)]
pub struct LibFile<'a> {
    pub path: &'a Abs,
    pub id: &'a Name,
    pub face: &'a Face,
    pub versions: &'a TextSet,
    ghost few: { IsFew face.now },
    ghost defines: { IsSetOf face.now.defs versions.now },
}

impl<'a> LibFile<'a> {
    ghost use Rattle.std.specs.Prelude.{◌≡◌};
    ghost use Rattle.load_model.specs.VersionCheck.{has_defined};

    /// Whether the file has no version definitions, or defines this one.
    pub fn has_version(&self, version: &Name) -> bool
        ensures { result ≡ has_defined version.now self.now.face.now.defs }
    {
        let defs = self.face.defs.as_slice();
        defs.is_empty() || self.versions.contains(version.as_bytes())
    }
}
