//! A directory that is ready to be written.

use appdir_files::Item;
use load_model::List;
use path_text::Abs;

/// A directory that is ready to be written.
#[derive(Drop)]
pub struct Built {
    /// Its files, in the order in which they are written. `AppRun` is the last.
    pub items: List<Item>,
    /// Where the bundled libraries lie, in the order in which they were loaded first, then the main
    /// program, then the tools.
    pub sources: List<Abs>,
    /// How many libraries are bundled.
    pub bundled: u32,
    /// How many libraries are expected of a host.
    pub hosts: u32,
    /// How many references the report has.
    pub references: u32,
    /// How many of them bind.
    pub bound: u32,
    /// How many objects the load lists have together.
    pub objects: u32,
}
