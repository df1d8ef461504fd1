//! The record of a build: what it demands of a host.

use load_model::{List, Name};
use path_text::Abs;

/// What a build demands of a host.
#[derive(Drop)]
pub struct Record {
    pub machine: u16,
    /// The interpreters of the programs.
    pub interps: List<Abs>,
    /// The host libraries, in the order in which they were first loaded.
    pub libs: List<RecLib>,
    /// The versions that programs and bundled libraries ask of host libraries.
    pub versions: List<RecVersion>,
    /// What references of programs and bundled libraries find in host libraries.
    pub looks: List<Look>,
}

/// A host library, with the names that it needs.
#[derive(Drop)]
pub struct RecLib {
    pub name: Name,
    pub needs: List<Name>,
}

/// A version that a library, by its number, is to have.
#[derive(Drop)]
pub struct RecVersion {
    pub lib: u32,
    pub version: Name,
}

/// A name that is looked up in a library, by its number, and what is found.
#[derive(Drop)]
pub struct Look {
    pub lib: u32,
    pub name: Name,
    /// The version that is looked for, if any.
    pub version: Option<Name>,
    /// Whether the reference is a call.
    pub call: bool,
    pub answer: Answer,
}

/// What a look finds: no symbol, one of version index 1, or one of a version.
#[derive(Drop)]
pub enum Answer {
    Nothing,
    Plain,
    Version(Name),
}
