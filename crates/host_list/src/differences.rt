//! Why a host does not meet a record, as `specs/Meeting.antt` says.

use host_record::Answer;
use load_model::{Class, Flaw, Name};
use path_text::Abs;

/// The first demand that a host does not meet, in the order of the variants.
#[derive(Drop)]
pub enum Difference {
    /// An interpreter is no file.
    NoInterp(Abs),
    /// A library is in none of the listed directories.
    NoLib(Name),
    /// The file of a library is damaged: its path, and the flaw.
    DamagedLib(Abs, Flaw),
    /// The soname of a library is another name: its name, and the soname.
    SonameDiffers(Name, Name),
    /// A library has a run path.
    HasRunPath(Name),
    /// The needs of a library are others from this place on, counted from 0.
    NeedsDiffer(Name, u32),
    /// Two libraries are one file.
    SameFile(Name, Name),
    /// A library lacks a version that is asked of it.
    NoVersion(Name, Name),
    /// A name, with or without a version, finds another answer in a library than is recorded: the
    /// library, the name, the version, the class, the recorded answer, and the one found.
    AnswerDiffers(Name, Name, Option<Name>, Class, Answer, Answer),
    /// A library asks a version of a file that it does not reach, or that lacks it: the library,
    /// the file, and the version.
    OwnVersion(Name, Name, Name),
}
