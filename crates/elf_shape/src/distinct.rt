//! Lists of texts without repeats.

ghost use Rattle.std.specs.Prelude.{◌≡◌, OnOk};
ghost use Rattle.elf_shape.specs.Distinct.{has, with_text};

use load_model::{List, Name, NoMemory};
use std::alloc::Global;

fn has(texts: &[Name], text: &[u8]) -> bool
    ensures { result ≡ has texts.now text.now }
{
    texts.iter().any(|t| text == t.as_bytes())
}

/// Adds a text, unless it is there.
pub(crate) fn add_text(alloc: Global, texts: &mut List<Name>, text: &[u8]) -> Result<(), NoMemory>
    ensures { OnOk result (texts.new ≡ with_text texts.old text.now) }
{
    if has(texts.as_slice(), text) {
        return Ok(());
    }
    texts.push(Name::from_bytes(alloc, text)?)
}
