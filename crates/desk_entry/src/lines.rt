//! What the text of a line is, as `specs/Lines.antt` writes it.

ghost use Rattle.std.specs.Prelude.{◌≡◌};
ghost use Rattle.std.specs.List.{list_all};
ghost use Rattle.desk_entry.specs.Lines.{IsEntryOf, IsGroupOf, is_blank_byte, is_quiet};

use crate::cutting::{behind, between_brackets, cut, without_spaces_before, without_spaces_behind};
use crate::keys::{is_group_name, is_key};

/// Whether a line is blank or a comment.
pub(crate) fn is_quiet(text: &[u8]) -> bool
    ensures { result ≡ is_quiet text.now }
{
    behind(text, b'#').is_some() || are_blank(text)
}

/// Whether each byte is a space or a tab.
fn are_blank(text: &[u8]) -> bool
    ensures { result ≡ list_all is_blank_byte text.now }
{
    text.iter().all(|c| is_blank_byte(*c))
}

fn is_blank_byte(c: u8) -> bool
    ensures { result ≡ is_blank_byte c }
{
    c == b' ' || c == b'\t'
}

/// The name of the group that begins at this line.
pub(crate) fn group_of(text: &[u8]) -> Option<&[u8]>
    ensures { IsGroupOf text.now result }
{
    match between_brackets(text) {
        Some(name) if is_group_name(name) => Some(name),
        _ => None,
    }
}

/// The key and the value of the entry of this line.
pub(crate) fn entry_of(text: &[u8]) -> Option<(&[u8], &[u8])>
    ensures { IsEntryOf text.now result }
{
    let Some((left, right)) = cut(text, b'=') else {
        return None;
    };
    let key = without_spaces_behind(left);
    if is_key(key) {
        Some((key, without_spaces_before(right)))
    } else {
        None
    }
}
