//! The lines of the text as values, as `specs/Lines.antt` writes them, and the sections in which
//! they stand.

use crate::records::Answer;
use load_model::Name;
use path_text::Abs;

/// A line of the text.
#[derive(Drop)]
pub(crate) enum Line {
    /// `appdir-host 1`
    Head,
    /// `machine M`
    Machine(u16),
    /// `interp PATH`
    Interp(Abs),
    /// `lib NAME`
    Declare(Name),
    /// `need NAME`
    Need(Name),
    /// `version LIB VERSION`
    Require(Name, Name),
    /// `look LIB NAME VERSION CLASS ANSWER`
    Ask(Lookup),
    /// `end`
    End,
}

/// A look as its line has it: with the name of the library.
#[derive(Drop)]
pub(crate) struct Lookup {
    pub lib: Name,
    pub name: Name,
    pub version: Option<Name>,
    pub call: bool,
    pub answer: Answer,
}

/// The sections of the text, in their order.
#[derive(Clone, Copy, PartialEq, Eq)]
pub(crate) enum Section {
    Start,
    Title,
    Target,
    Interps,
    Libs,
    Versions,
    Looks,
    Done,
}
