//! Texts of a string table: their sizes, and their bytes with a zero behind each.

ghost use Rattle.std.specs.Prelude.{◌≡◌, ◌+◌, length};
ghost use Rattle.strtab_grow.specs.Growth.{stands_in, stored, size_to};

use load_model::Name;

/// A string table is smaller than this, as the places in it are words of 32 bits.
pub const TABLE_LIMIT: u64 = 4_294_967_296;

/// Whether a text is among those.
pub(crate) fn holds(seen: &[Name], text: &[u8]) -> bool
    ensures { result ≡ stands_in text.now seen.now }
{
    seen.iter().any(|s| s.as_bytes() == text)
}

/// The size of a table with these texts behind it, where it is below the limit.
pub(crate) fn size_with(old_size: u64, texts: &[Name]) -> Option<u64>
    ensures { result ≡ size_to old_size texts.now }
{
    let mut size = old_size;
    for text in texts {
        if size >= TABLE_LIMIT {
            return None;
        }
        size = size
            .saturating_add(text.as_bytes().len() as u64)
            .saturating_add(1);
    }
    if size < TABLE_LIMIT { Some(size) } else { None }
}

/// Writes a text and its zero over a part of their size.
pub(crate) fn put_text(part: &mut [u8], text: &[u8])
    requires { length part.old ≡ length text.now + 1 }
    ensures { part.new ≡ stored text.now }
{
    let len = text.len();
    part[..len].copy_from_slice(text);
    part[len] = 0;
}
