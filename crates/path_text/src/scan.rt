//! Tests of texts and of their parts that paths, targets and names share.

ghost use Rattle.std.specs.Prelude.{◌≡◌, MatchOption, false, true};
ghost use Rattle.std.specs.Str.{is_utf8};
ghost use Rattle.path_text.specs.Path.{begins_at_root, has_nul, is_idle, is_parent};

/// Whether the first byte is a slash.
pub(crate) fn begins_at_root(text: &[u8]) -> bool
    ensures { result ≡ begins_at_root text.now }
{
    text.first() == Some(&b'/')
}

/// Whether a byte is zero.
pub(crate) fn has_nul(text: &[u8]) -> bool
    ensures { result ≡ has_nul text.now }
{
    text.contains(&0)
}

/// The bytes as text, where they are UTF-8.
pub(crate) fn text_of(bytes: &[u8]) -> Option<&str>
    ensures { MatchOption result (is_utf8 bytes.now ≡ false)
        (λ s. (s.now ≡ bytes.now) × (is_utf8 bytes.now ≡ true)) }
{
    match std::str::from_utf8(bytes) {
        Ok(text) => Some(text),
        Err(_) => None,
    }
}

/// Whether a part of a path leads nowhere.
pub(crate) fn is_idle(part: &[u8]) -> bool
    ensures { result ≡ is_idle part.now }
{
    part.is_empty() || part == b".".as_slice()
}

/// Whether a part of a path leads to the parent.
pub(crate) fn is_parent(part: &[u8]) -> bool
    ensures { result ≡ is_parent part.now }
{
    part == b"..".as_slice()
}
