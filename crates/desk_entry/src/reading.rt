//! A desktop entry file is read line by line, in one pass. Definition: `specs/Reading.antt`.

ghost use Rattle.std.specs.Prelude.{◌≡◌, Ok};
ghost use Rattle.std.specs.Str.{is_utf8};
ghost use Rattle.desk_entry.specs.Reading.{AreLinesRead, IsReadingOf, entries_of};

use crate::cutting::cut;
use crate::entries::Entries;
use crate::states::{Place, State};
use std::alloc::Global;

/// Why a text is no desktop entry file. Lines are numbered from 1 on.
#[derive(Clone, Copy, PartialEq, Eq, Debug)]
pub enum DeskFault {
    NotUtf8,
    /// The line is of no kind, or may not stand before the first group.
    Line(u32),
    NoGroup,
    /// The group stood before.
    TwoGroups(u32),
    /// The key stood before in its group.
    TwoKeys(u32),
    NoMemory,
}

/// The entries of the first group, or the first fault, line by line.
///
/// A text of 2^32 lines or more is answered as want of memory, unless a line before is refused.
pub fn read_entry(alloc: Global, text: &[u8]) -> Result<Entries, DeskFault>
    ensures { IsReadingOf text.now result }
{
    if !is_text(text) {
        return Err(DeskFault::NotUtf8);
    }
    match read_lines(alloc, text) {
        Ok(state) => first_group(state),
        Err(fault) => Err(fault),
    }
}

fn is_text(bytes: &[u8]) -> bool
    ensures { result ≡ is_utf8 bytes.now }
{
    match str::from_utf8(bytes) {
        Ok(_) => true,
        Err(_) => false,
    }
}

/// What the lines say.
fn read_lines(alloc: Global, text: &[u8]) -> Result<State, DeskFault>
    ensures { AreLinesRead text.now result }
{
    let mut state = State::new(alloc);
    let mut number: u32 = 1;
    let mut rest = text;
    'lines: while let Some((line, more)) = cut(rest, b'\n') {
        if let Err(fault) = state.take(alloc, number, line) {
            return Err(fault);
        }
        if number == u32::MAX {
            return Err(DeskFault::NoMemory);
        }
        number += 1;
        rest = more;
    }
    match state.take(alloc, number, rest) {
        Ok(()) => Ok(state),
        Err(fault) => Err(fault),
    }
}

/// The entries of the first group, if there is a group.
fn first_group(state: State) -> Result<Entries, DeskFault>
    ensures { result ≡ entries_of (Ok state) }
{
    if state.place == Place::Outside {
        return Err(DeskFault::NoGroup);
    }
    Ok(Entries { pairs: state.pairs })
}
