//! How a case ended, and how it wants to end.

use crate::case::{Case, WantedFile};
use crate::outside::{Outside, content_of, source};
use appdir_cli::{Status, status_name};
use case_files::has_pieces;
use case_rows::{Fault, decoded};
use load_model::Name;
use ports::MemFile;
use std::alloc::Global;

/// The status of a call, and what is outside after it.
#[derive(Drop)]
pub struct Ending {
    pub status: Status,
    pub outside: Outside,
}

impl Ending {
    pub fn status_name(&self) -> &'static str {
        status_name(self.status)
    }

    /// The printed line.
    pub fn line(&self) -> &str {
        str::from_utf8(self.outside.sink.bytes()).unwrap_or("a line that is no text")
    }

    /// The finished files.
    pub fn finished(&self) -> &[MemFile] {
        self.outside.out.finished()
    }

    /// The roots that the call opened: those behind the roots of the files that were there.
    pub fn roots(&self, case: &Case<'_>) -> &[Name] {
        match self.outside.out.roots().get(case.finished.len()..) {
            Some(roots) => roots,
            None => &[],
        }
    }
}

/// Whether a case ended as it wants to.
pub fn is_as_wanted(alloc: Global, case: &Case<'_>, ending: &Ending) -> Result<bool, Fault> {
    let wants = &case.wants;
    let are_texts = wants.status == ending.status_name() && wants.line == ending.line();
    let is_all = ending.finished().len() == wants.finished.len()
        && is_root(ending.roots(case), wants.root);
    Ok(are_texts && is_all && are_first_wanted(alloc, case, ending.finished())?)
}

/// Whether the wanted root alone was opened, or none where none is wanted.
pub fn is_root(opened: &[Name], wanted: Option<&str>) -> bool {
    match (opened, wanted) {
        ([], None) => true,
        ([root], Some(path)) => root.as_bytes() == path.as_bytes(),
        _ => false,
    }
}

/// Whether these files are the first of those that a case wants.
pub fn are_first_wanted(alloc: Global, case: &Case<'_>, files: &[MemFile]) -> Result<bool, Fault> {
    if files.len() > case.wants.finished.len() {
        return Ok(false);
    }
    for (file, wanted) in files.iter().zip(case.wants.finished) {
        if !is_wanted(alloc, case, file, &WantedFile::of(wanted)?)? {
            return Ok(false);
        }
    }
    Ok(true)
}

/// Whether this file is the wanted one.
fn is_wanted(
    alloc: Global,
    case: &Case<'_>,
    file: &MemFile,
    wanted: &WantedFile<'_>,
) -> Result<bool, Fault> {
    let bytes = file.bytes.as_bytes();
    let is_placed = file.path.as_str() == wanted.path && file.executable == wanted.executable;
    Ok(
        is_placed
            && is_length(bytes, wanted.length)
            && is_text(bytes, wanted.text)
            && is_hex(alloc, bytes, wanted.hex)?
            && is_copy(alloc, case, bytes, wanted.bytes_of)?
            && has_pieces(alloc, bytes, wanted.pieces)?,
    )
}

/// Whether there are as many bytes as there are to be, if that is said.
fn is_length(bytes: &[u8], length: Option<u64>) -> bool {
    match length {
        Some(length) => bytes.len() as u64 == length,
        None => true,
    }
}

/// Whether bytes are a text, if there is one.
fn is_text(bytes: &[u8], text: Option<&str>) -> bool {
    match text {
        Some(text) => bytes == text.as_bytes(),
        None => true,
    }
}

/// Whether bytes are those that digits say, if there are any.
fn is_hex(alloc: Global, bytes: &[u8], digits: Option<&str>) -> Result<bool, Fault> {
    match digits {
        Some(digits) => Ok(bytes == decoded(alloc, digits)?.as_slice()),
        None => Ok(true),
    }
}

/// Whether bytes are those of the file of the tree at a path, if there is one.
fn is_copy(
    alloc: Global,
    case: &Case<'_>,
    bytes: &[u8],
    path: Option<&str>,
) -> Result<bool, Fault> {
    match path {
        Some(path) => is_source(alloc, case, bytes, path),
        None => Ok(true),
    }
}

/// Whether bytes are those of the file of the tree at a path.
fn is_source(alloc: Global, case: &Case<'_>, bytes: &[u8], path: &str) -> Result<bool, Fault> {
    let content = source(&case.files, path)?.content;
    Ok(bytes == content_of(alloc, content, case.tables)?.as_slice())
}
