//! Whether a file stays as it is.
//!
//! Said in `specs/Unchanged.antt`.

ghost use Rattle.std.specs.Prelude.{◌≡◌};
ghost use Rattle.std.specs.Cmp.Lexicographic.{pointwise};
ghost use Rattle.std.specs.Option.{option_eq};
ghost use Rattle.std.specs.Str.{bytes_eq};
ghost use Rattle.elf_rewrite.specs.FittingFace.{files_in};
ghost use Rattle.object_changes.specs.Unchanged.{is_unchanged};

use elf_rewrite::Change;
use load_model::{Ask, Face, Name};

/// Whether a file with this face has the texts of the change, and no RPATH.
pub fn is_unchanged(face: &Face, change: &Change) -> bool
    ensures { result ≡ is_unchanged face.now change.now }
{
    are_same(face.needs.as_slice(), change.needs.as_slice())
        && is_same(&face.soname, &change.soname)
        && is_same(&face.runpath, &change.runpath)
        && are_asked(face.asks.as_slice(), change.files.as_slice())
        && face.rpath.is_none()
}

/// Whether two names, where there are any, are equal.
fn is_same(one: &Option<Name>, other: &Option<Name>) -> bool
    ensures { result ≡ option_eq bytes_eq one.now other.now }
{
    match (one, other) {
        (Some(one), Some(other)) => one.as_bytes() == other.as_bytes(),
        (None, None) => true,
        _ => false,
    }
}

/// Whether these are the same names, in order.
fn are_same(ones: &[Name], others: &[Name]) -> bool
    ensures { result ≡ pointwise bytes_eq ones.now others.now }
{
    if ones.len() != others.len() {
        return false;
    }
    for (place, one) in ones.iter().enumerate() {
        if one.as_bytes() != others[place].as_bytes() {
            return false;
        }
    }
    true
}

/// Whether these are the files of the asks, in order.
fn are_asked(asks: &[Ask], files: &[Name]) -> bool
    ensures { result ≡ pointwise bytes_eq (files_in asks.now) files.now }
{
    if asks.len() != files.len() {
        return false;
    }
    for (place, ask) in asks.iter().enumerate() {
        if ask.file.as_bytes() != files[place].as_bytes() {
            return false;
        }
    }
    true
}
