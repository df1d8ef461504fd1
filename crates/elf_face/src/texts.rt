//! Texts of a file, and copies of them.

ghost use Rattle.std.specs.Prelude.{◌≡◌, IfOk, IfSome, ◌<◌, ◌≤◌, length, position};
ghost use Rattle.std.specs.List.{before_first, position_or_len};
ghost use Rattle.std.specs.Option.{option_copied};
ghost use Rattle.std.specs.Str.{is_utf8};
ghost use Rattle.dyn_table.specs.Table.{IsTableOf};
ghost use Rattle.load_model.specs.Faces.{is_zero};
ghost use Rattle.load_model.specs.VersionTables.{text_of};

use dyn_table::Dyn;
use load_model::{Name, NoMemory};
use std::alloc::Global;

/// Is it UTF-8?
pub(crate) fn is_text(bytes: &[u8]) -> bool
    ensures { result ≡ is_utf8 bytes.now }
{
    match std::str::from_utf8(bytes) {
        Ok(_) => true,
        Err(_) => false,
    }
}

/// The text at a string place, empty where the string table ends before it.
pub(crate) fn text_of<'a>(table: &Dyn, bytes: &'a [u8], at: u64) -> &'a [u8]
    requires { IsTableOf table.now bytes.now }
    ensures { result.now ≡ text_of bytes.now at }
{
    match table.text(bytes, at) {
        Some(text) => text,
        None => &[],
    }
}

fn first_zero(bytes: &[u8]) -> Option<usize>
    ensures place { result ≡ position is_zero bytes.now }
    ensures bound { IfSome result (λ i. i < length bytes.now) }
{
    bytes.iter().position(|c| *c == 0)
}

/// How many bytes stand before the first zero byte.
#[tactic(auto, using(dyn_table::proofs::StringTable::place_is, dyn_table::proofs::StringTable::no_place))]
fn length_before_zero(bytes: &[u8]) -> usize
    ensures count { result ≡ position_or_len is_zero bytes.now }
    ensures bound { result ≤ length bytes.now }
{
    match first_zero(bytes) {
        Some(end) => end,
        None => bytes.len(),
    }
}

/// The bytes before the first zero byte, or all.
pub(crate) fn before_zero(bytes: &[u8]) -> &[u8]
    ensures { result.now ≡ before_first is_zero bytes.now }
{
    &bytes[..length_before_zero(bytes)]
}

/// A copy of a text, where there is one.
pub(crate) fn copied(alloc: Global, text: Option<&[u8]>) -> Result<Option<Name>, NoMemory>
    ensures { IfOk result (λ name. name ≡ option_copied text.entry) }
{
    match text {
        Some(text) => Ok(Some(Name::from_bytes(alloc, text)?)),
        None => Ok(None),
    }
}
