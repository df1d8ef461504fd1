//! Whether a change can be made to a file, by its face.

ghost use Rattle.std.specs.Prelude.{◌≡◌, [], slice_index_or};
ghost use Rattle.std.specs.List.{list_all};
ghost use Rattle.std.specs.Str.{is_utf8};
ghost use Rattle.elf_rewrite.specs.NewFile.{is_name_or_none, is_name_text};
ghost use Rattle.path_text.specs.Path.{has_nul};
ghost use Rattle.rewrite_cases.specs.FittingChange.{is_fitting, is_one_text};

use elf_rewrite::Change;
use load_model::{Face, Name};

/// Whether the change fits, of a face with at most one ask, or where all asks get one file.
pub fn fits(face: &Face, change: &Change) -> bool
    ensures { result ≡ is_fitting change.now face.now }
{
    change.needs.as_slice().len() == face.needs.as_slice().len()
        && change.files.as_slice().len() == face.asks.as_slice().len()
        && is_one_text(change.files.as_slice())
        && (change.soname.is_none() || face.soname.is_some())
        && are_name_texts(change.needs.as_slice())
        && are_name_texts(change.files.as_slice())
        && is_name_or_none(&change.soname)
        && is_name_or_none(&change.runpath)
}

/// Whether all texts are one.
fn is_one_text(texts: &[Name]) -> bool
    ensures { result ≡ is_one_text texts.now }
{
    let first = first_of(texts);
    texts.iter().all(|t| t.as_bytes() == first)
}

fn first_of(texts: &[Name]) -> &[u8]
    ensures { result.now ≡ slice_index_or texts.now 0 [] }
{
    match texts.get(0) {
        Some(text) => text.as_bytes(),
        None => &[],
    }
}

fn is_text(bytes: &[u8]) -> bool
    ensures { result ≡ is_utf8 bytes.now }
{
    match str::from_utf8(bytes) {
        Ok(_) => true,
        Err(_) => false,
    }
}

fn is_name_text(text: &[u8]) -> bool
    ensures { result ≡ is_name_text text.now }
{
    is_text(text) && !has_nul(text)
}

fn has_nul(text: &[u8]) -> bool
    ensures { result ≡ has_nul text.now }
{
    text.contains(&0)
}

fn are_name_texts(texts: &[Name]) -> bool
    ensures { result ≡ list_all is_name_text texts.now }
{
    texts.iter().all(|t| is_name_text(t.as_bytes()))
}

fn is_name_or_none(text: &Option<Name>) -> bool
    ensures { result ≡ is_name_or_none text.now }
{
    match text {
        Some(text) => is_name_text(text.as_bytes()),
        None => true,
    }
}
