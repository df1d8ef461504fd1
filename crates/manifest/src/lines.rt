//! The list of files, a line for each. Definitions: `specs/Manifest.antt`.

ghost use Rattle.std.specs.Prelude.{◌≡◌, ◌∷◌, [], ◌++◌, IfOk, OnOk, codes};
ghost use Rattle.std.specs.Fmt.{decimal};
ghost use Rattle.std.specs.List.{flat_map};
ghost use Rattle.load_model.specs.Escaping.{escaped};
ghost use Rattle.manifest.specs.Manifest.{item_line, length_of, manifest_of, mark_of};

use appdir_files::{Body, Item};
use load_model::{NoMemory, Text, escape_onto};
use std::alloc::Global;

/// The list of these files, in their order: which may be run, how many bytes each has, and where
/// it lies.
pub fn manifest_text(alloc: Global, items: &[Item]) -> Result<Text, NoMemory>
    ensures { IfOk result (λ text. text ≡ manifest_of items.now) }
{
    let mut out = Vec::new(alloc);
    out.extend_from_slice(b"appdir-files 1\n")?;
    push_items(alloc, &mut out, items)?;
    out.extend_from_slice(b"end\n")?;
    Ok(Text::from_vec(out))
}

fn push_items(alloc: Global, out: &mut Vec<u8>, items: &[Item]) -> Result<(), NoMemory>
    ensures { OnOk result (out.new.items ≡ out.old.items ++ flat_map item_line items.now) }
{
    for item in items {
        push_item(alloc, out, item)?;
    }
    Ok(())
}

/// Adds the line of a file.
fn push_item(alloc: Global, out: &mut Vec<u8>, item: &Item) -> Result<(), NoMemory>
    ensures { OnOk result (out.new.items ≡ out.old.items ++ item_line item.now) }
{
    let length = length_of(&item.body);
    let front = format!(in alloc; " {length} ")?;
    out.extend_from_slice(mark_of(item.executable))?;
    out.extend_from_slice(front.as_bytes())?;
    escape_onto(out, item.path.as_str().as_bytes())?;
    out.extend_from_slice(b"\n")?;
    Ok(())
}

/// `x` for a file that may be run, `-` for one that may not.
fn mark_of(executable: bool) -> &'static [u8]
    ensures { result.now ≡ mark_of executable }
{
    if executable { b"x" } else { b"-" }
}

/// How many bytes the file has.
fn length_of(body: &Body) -> u64
    ensures { result ≡ length_of body.now }
{
    match body {
        Body::Bytes(text) => text.as_bytes().len() as u64,
        Body::Copy { len, .. } => *len,
    }
}
