//! The entries of a group, and what they say. Definition: `specs/Entries.antt`.

ghost use Rattle.std.specs.Prelude.{◌≡◌, option_copied};
ghost use Rattle.desk_entry.specs.Entries.{exec_word, first_word, quoted_word, value_of};

use crate::cutting::{behind, cut, up_to};
use load_model::{List, Name};

/// The entries of the first group, in order.
#[derive(Drop)]
pub struct Entries {
    pub pairs: List<Pair>,
}

/// An entry: its key, with the locale in brackets where it has one, and its value.
#[derive(Drop)]
pub struct Pair {
    pub key: Name,
    pub value: Name,
}

/// The value of the first entry with this key.
pub fn value_of<'a>(entries: &'a Entries, key: &[u8]) -> Option<&'a [u8]>
    ensures { option_copied result ≡ value_of entries.now.pairs key.now }
{
    for pair in entries.pairs.as_slice() {
        if pair.key.as_bytes() == key {
            return Some(pair.value.as_bytes());
        }
    }
    None
}

/// The program that `Exec` names: the first word of its value.
pub fn exec_word(entries: &Entries) -> Option<&[u8]>
    ensures { option_copied result ≡ exec_word entries.now.pairs }
{
    match value_of(entries, b"Exec") {
        Some(value) => Some(first_word(value)),
        None => None,
    }
}

/// The value up to the first space, or what stands between quotes at its beginning.
fn first_word(value: &[u8]) -> &[u8]
    ensures { result.now ≡ first_word value.now }
{
    match behind(value, b'"') {
        Some(rest) => quoted_word(value, rest),
        None => up_to(value, b' '),
    }
}

/// The text up to the next quote. Where there is none, or something is escaped before it, the word
/// is the whole value.
fn quoted_word<'a>(value: &'a [u8], rest: &'a [u8]) -> &'a [u8]
    ensures { result.now ≡ quoted_word value.now rest.now }
{
    match cut(rest, b'"') {
        Some((word, _)) if !word.contains(&b'\\') => word,
        _ => value,
    }
}
