//! The commands that words can ask for. Definition of which words ask for which: `specs/Words.antt`.

use load_model::{List, Name};
use path_text::Abs;

/// What the words ask for.
#[derive(Drop)]
pub enum Command {
    Quick(Quick),
    Build(Build),
    Show(Show),
    Host(Host),
    Gen(Gen),
}

/// `quick PROGRAM OUT [NAME ..]`: pack one program without a desktop entry. `names` are the words
/// NAME: the libraries that every host is expected to have, where any are given.
#[derive(Drop)]
pub struct Quick {
    pub program: Abs,
    pub out: Abs,
    pub names: List<Name>,
}

/// `build CONFIG OUT`: pack what a configuration says.
#[derive(Drop)]
pub struct Build {
    pub config: Abs,
    pub out: Abs,
}

/// `show PROGRAM [DIR ..]`: say what a program loads and what its references bind to. `dirs` are
/// where the loader looks for libraries: the words DIR, or the default directories where none is
/// given.
#[derive(Drop)]
pub struct Show {
    pub program: Abs,
    pub dirs: List<Abs>,
}

/// `host OUT [DIR ..]`: say whether the files of this host meet the record of an AppDir. `place` is
/// where the AppDir lies; `dirs` are as those of `show`.
#[derive(Drop)]
pub struct Host {
    pub place: Abs,
    pub dirs: List<Abs>,
}

/// `gen N`: make a tree of N libraries in memory, and say what packing its program counts.
#[derive(Drop)]
pub struct Gen {
    pub count: u32,
}
