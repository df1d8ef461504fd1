//! Cuts of a text at bytes, as `specs/Cuts.antt` says.

ghost use Rattle.std.specs.Prelude.{◌≡◌, ◌==◌};
ghost use Rattle.std.specs.List.{before_first};
ghost use Rattle.desk_entry.specs.Cuts.{IsBefore, IsBehind, IsBetween, IsCut, IsEnd, IsStart};

use bstr::ByteSlice;

/// What stands before the first such byte and behind it.
pub(crate) fn cut(text: &[u8], byte: u8) -> Option<(&[u8], &[u8])>
    ensures { IsCut text.now byte result }
{
    let at = text.find_byte(byte)?;
    Some((&text[..at], &text[at + 1..]))
}

/// The text up to the first such byte, or all of it.
pub(crate) fn up_to(text: &[u8], byte: u8) -> &[u8]
    ensures { result.now ≡ before_first (λ c. c == byte) text.now }
{
    match cut(text, byte) {
        Some((before, _)) => before,
        None => text,
    }
}

/// What follows this byte at the beginning.
pub(crate) fn behind(text: &[u8], byte: u8) -> Option<&[u8]>
    ensures { IsBehind text.now byte result }
{
    match text.split_first() {
        Some((first, rest)) if *first == byte => Some(rest),
        _ => None,
    }
}

/// What stands before this byte at the end.
pub(crate) fn before(text: &[u8], byte: u8) -> Option<&[u8]>
    ensures { IsBefore text.now byte result }
{
    match text.split_last() {
        Some((last, rest)) if *last == byte => Some(rest),
        _ => None,
    }
}

/// What stands between `[` at the beginning and `]` at the end.
pub(crate) fn between_brackets(text: &[u8]) -> Option<&[u8]>
    ensures { IsBetween text.now result }
{
    match behind(text, b'[') {
        Some(rest) => before(rest, b']'),
        None => None,
    }
}

/// The text from its first byte on that is no space.
pub(crate) fn without_spaces_before(text: &[u8]) -> &[u8]
    ensures { IsEnd text.now result.now }
{
    let mut rest = text;
    'spaces: while let Some(more) = behind(rest, b' ') {
        rest = more;
    }
    rest
}

/// The text up to its last byte that is no space.
pub(crate) fn without_spaces_behind(text: &[u8]) -> &[u8]
    ensures { IsStart text.now result.now }
{
    let mut rest = text;
    'spaces: while let Some(more) = before(rest, b' ') {
        rest = more;
    }
    rest
}
