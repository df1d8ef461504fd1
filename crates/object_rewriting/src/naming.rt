//! Whether a file still names what its face names. The definition is in `specs/Naming.antt`.

ghost use Rattle.std.specs.Prelude.{◌≡◌, IfOk};
ghost use Rattle.std.specs.Option.{option_copied};
ghost use Rattle.std.specs.Str.{bytes_eq};
ghost use Rattle.elf_face.specs.ReadParts.{ArePartsOf};
ghost use Rattle.load_model.specs.Faces.{face_of};
ghost use Rattle.object_rewriting.specs.Naming.{files_match_up, match_up, names_the_same, same_files, same_text, same_texts};

use elf_face::Parts;
use load_model::{Ask, Face, Name, NoMemory};
use std::alloc::Global;

/// Whether the file that the parts were read from names what a face names.
#[tactic(auto, unfolding(load_model::specs::Faces::face_of))]
pub(crate) fn names_the_same(
    alloc: Global,
    parts: &Parts,
    bytes: &[u8],
    face: &Face,
) -> Result<bool, NoMemory>
    requires { ArePartsOf parts.now bytes.now }
    ensures { IfOk result (λ same. same ≡ names_the_same (face_of bytes.now) face.now) }
{
    let needs = parts.needs(alloc, bytes)?;
    Ok(
        same_texts(needs.as_slice(), face.needs.as_slice())
            && same_text(parts.soname(bytes), &face.soname)
            && same_files(parts.versions.asks(), face.asks.as_slice()),
    )
}

/// Whether the texts are the same, one by one.
fn same_texts(xs: &[Name], ys: &[Name]) -> bool
    ensures { result ≡ same_texts xs.now ys.now }
{
    xs.len() == ys.len() && match_up(xs, ys)
}

/// Whether each text is the same as the one beside it.
fn match_up(xs: &[Name], ys: &[Name]) -> bool
    ensures { result ≡ match_up xs.now ys.now }
{
    xs.iter().zip(ys).all(|(x, y)| is_same(x, y))
}

fn is_same(x: &Name, y: &Name) -> bool
    ensures { result ≡ bytes_eq x.now y.now }
{
    x.as_bytes() == y.as_bytes()
}

/// The same of a text that may be missing.
fn same_text(x: Option<&[u8]>, y: &Option<Name>) -> bool
    ensures { result ≡ same_text (option_copied x.entry) y.now }
{
    match (x, y) {
        (None, None) => true,
        (Some(x), Some(y)) => x == y.as_bytes(),
        _ => false,
    }
}

/// The same of the files that versions are asked of.
fn same_files(xs: &[Ask], ys: &[Ask]) -> bool
    ensures { result ≡ same_files xs.now ys.now }
{
    xs.len() == ys.len() && files_match_up(xs, ys)
}

fn files_match_up(xs: &[Ask], ys: &[Ask]) -> bool
    ensures { result ≡ files_match_up xs.now ys.now }
{
    xs.iter().zip(ys).all(|(x, y)| is_same(&x.file, &y.file))
}
