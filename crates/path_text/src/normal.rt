//! The normal form of a path, and the cuts at its slashes.
ghost use Rattle.std.specs.Prelude.{◌≡◌, [], ◌∷◌, ◌++◌, IfOk, map, string_bytes, true};
ghost use Rattle.path_text.specs.Path.{IsNormalPath, base_of, begins_at_root, folder_of, named_parts, normal_path, parts_of, rooted};

use crate::scan::{is_idle, is_parent};
use std::alloc::{AllocError, Global};

/// The path in normal form.
pub(crate) fn normal_text(alloc: Global, text: &str) -> Result<String, AllocError>
    ensures { IfOk result (λ t. string_bytes t ≡ normal_path text.now) }
{
    let parts = named_parts(alloc, text)?;
    rooted(alloc, parts.as_slice())
}

/// The parts to which the text leads from the root.
fn named_parts(alloc: Global, text: &str) -> Result<Vec<&str>, AllocError>
    ensures { IfOk result (λ v. map (λ p. p.now) v.items ≡ named_parts text.now) }
{
    let mut parts = Vec::new(alloc);
    for part in text.split('/') {
        if is_parent(part.as_bytes()) {
            parts.pop();
        } else if !is_idle(part.as_bytes()) {
            parts.push(part)?;
        }
    }
    Ok(parts)
}

/// The path of the parts: a slash before each, or the root alone.
fn rooted(alloc: Global, parts: &[&str]) -> Result<String, AllocError>
    ensures { IfOk result (λ t. string_bytes t ≡ rooted (map (λ p. p.now) parts.now)) }
{
    if parts.is_empty() {
        return String::from_str(alloc, "/");
    }
    let mut path = String::new(alloc);
    for part in parts {
        path.push('/')?;
        path.push_str(*part)?;
    }
    Ok(path)
}

/// The path, a slash and the rest.
pub(crate) fn joined(alloc: Global, path: &[u8], rest: &[u8]) -> Result<Vec<u8>, AllocError>
    ensures { IfOk result (λ v. v.items ≡ path.now ++ 47 ∷ rest.now) }
{
    let mut text = Vec::from_slice(alloc, path)?;
    text.push(b'/')?;
    text.extend_from_slice(rest)?;
    Ok(text)
}

/// A normal path without its last part.
pub(crate) fn folder_text(path: &str) -> &str
    requires { IsNormalPath path.now }
    ensures { result.now ≡ folder_of path.now }
{
    let (folder, _) = cut_last(path);
    if folder.is_empty() { "/" } else { folder }
}

/// The last part of a normal path.
pub(crate) fn base_text(path: &str) -> &str
    requires { IsNormalPath path.now }
    ensures { result.now ≡ base_of path.now }
{
    let (_, base) = cut_last(path);
    base
}

/// A path cut at its last slash: all parts but the last, and the last.
fn cut_last(path: &str) -> (&str, &str)
    requires { begins_at_root path.now ≡ true }
    ensures { parts_of path.now ≡ parts_of result.0.now ++ result.1.now ∷ [] }
{
    path.rsplit_once('/').unwrap_or(("", path))
}
