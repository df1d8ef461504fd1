//! Keys of entries and names of groups, as `specs/Lines.antt` writes them.

ghost use Rattle.std.specs.Prelude.{◌≡◌, ◌∷◌, ◌↔◌, IsTrue};
ghost use Rattle.std.specs.List.{list_all};
ghost use Rattle.desk_entry.specs.Lines.{IsGroupName, IsKey, IsKeyName, IsLocaleText, is_group_byte, is_key_byte, is_locale_byte};

use crate::cutting::{before, cut};

/// Whether this is the name of a group.
pub(crate) fn is_group_name(text: &[u8]) -> bool
    ensures { IsTrue result ↔ IsGroupName text.now }
{
    !text.is_empty() && are_group_bytes(text)
}

/// Whether this is a key, with or without a locale.
pub(crate) fn is_key(text: &[u8]) -> bool
    ensures { IsTrue result ↔ IsKey text.now }
{
    match cut(text, b'[') {
        Some((name, rest)) => is_key_name(name) && ends_locale(rest),
        None => is_key_name(text),
    }
}

fn is_key_name(text: &[u8]) -> bool
    ensures { IsTrue result ↔ IsKeyName text.now }
{
    !text.is_empty() && are_key_bytes(text)
}

/// Whether this is a locale and the bracket behind it.
fn ends_locale(text: &[u8]) -> bool
    ensures { IsTrue result ↔ IsLocaleText (91 ∷ text.now) }
{
    match before(text, b']') {
        Some(locale) => !locale.is_empty() && are_locale_bytes(locale),
        None => false,
    }
}

fn are_group_bytes(text: &[u8]) -> bool
    ensures { result ≡ list_all is_group_byte text.now }
{
    text.iter().all(|c| is_group_byte(*c))
}

fn is_group_byte(c: u8) -> bool
    ensures { result ≡ is_group_byte c }
{
    c >= b' ' && c != b'[' && c != b']'
}

fn are_key_bytes(text: &[u8]) -> bool
    ensures { result ≡ list_all is_key_byte text.now }
{
    text.iter().all(|c| is_key_byte(*c))
}

fn is_key_byte(c: u8) -> bool
    ensures { result ≡ is_key_byte c }
{
    c.is_ascii_alphanumeric() || c == b'-'
}

fn are_locale_bytes(text: &[u8]) -> bool
    ensures { result ≡ list_all is_locale_byte text.now }
{
    text.iter().all(|c| is_locale_byte(*c))
}

fn is_locale_byte(c: u8) -> bool
    ensures { result ≡ is_locale_byte c }
{
    c != b'[' && c != b']' && c != b'='
}
