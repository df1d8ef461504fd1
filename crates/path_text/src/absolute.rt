//! Absolute paths: reading one brings it into normal form. The definition is in `specs/Path.antt`.

ghost use Rattle.std.specs.Prelude.{◌≡◌, ◌≢◌, ◌∷◌, ◌++◌, IfErr, IfOk, MatchResult, None, OnOk, Some};
ghost use Rattle.answers.specs.Answers.{Answers};
ghost use Rattle.path_text.specs.Path.{IsNormalPath, IsPath, IsPathFault, base_of, folder_of, path_fault, path_of, said_of_path};

use crate::NoMemory;
use crate::normal::{base_text, folder_text, joined, normal_text};
use crate::scan::{begins_at_root, has_nul, text_of};
use std::alloc::Global;
use std::marker::Model;
use thiserror::Error;

/// Why a text is no absolute path. The variants stand in the order in which they are tried.
#[derive(Clone, Copy, PartialEq, Eq, Debug, Error)]
pub enum PathFault {
    #[error("the path is empty")]
    Empty,
    #[error("the path does not begin with a slash")]
    Relative,
    #[error("the path has a zero byte")]
    HasNul,
    #[error("the path is not UTF-8")]
    NotText,
    #[error("no memory")]
    NoMemory,
}

/// An absolute path in normal form: `/` followed by parts joined with `/`, no part empty, `.` or
/// `..`.
#[derive(Drop)]
pub struct Abs {
    text: String,
}

impl Model for Abs {
    ghost use Rattle.std.specs.Prelude.{List, ℕ, string_bytes};

    ghost Value = { List ℕ };

    ghost use Rattle.path_text.specs.Path.{IsNormalPath};

    ghost view = { λ p. string_bytes p.text };

    ghost invariant = { λ p. IsNormalPath (string_bytes p.text) };
}

impl Abs {
    /// Reads an absolute path and brings it into normal form: empty parts and `.` are dropped, and
    /// `..` drops the part before it, and nothing at the root. The first fault in the order of
    /// [`PathFault`] is answered.
    pub fn read(alloc: Global, text: &[u8]) -> Result<Abs, PathFault>
        ensures answer { Answers said_of_path result (path_of text.now) }
        ensures ok { OnOk result (IsPath text.now) }
        ensures normal { IfOk result (λ p. IsNormalPath p) }
        ensures fault { IfErr result (λ e. IsPathFault e text.now) }
    {
        let text = match checked(text) {
            Ok(text) => text,
            Err(fault) => return Err(fault),
        };
        match normal_text(alloc, text) {
            Ok(text) => Ok(Abs { text }),
            Err(_) => Err(PathFault::NoMemory),
        }
    }

    /// Reads this path, a slash and the rest. The faults are those of the rest, HasNul and NotText.
    pub fn join(&self, alloc: Global, rest: &[u8]) -> Result<Abs, PathFault>
        ensures answer { Answers said_of_path result (path_of (self.now ++ 47 ∷ rest.now)) }
        ensures normal { IfOk result (λ p. IsNormalPath p) }
        ensures not_empty { result ≢ Err PathFault.Empty }
        ensures not_relative { result ≢ Err PathFault.Relative }
    {
        match joined(alloc, self.as_str().as_bytes(), rest) {
            Ok(text) => Abs::read(alloc, text.as_slice()),
            Err(_) => Err(PathFault::NoMemory),
        }
    }

    /// The path without its last part; the folder of `/` is `/`.
    pub fn folder(&self, alloc: Global) -> Result<Abs, NoMemory>
        ensures folder { IfOk result (λ p. p ≡ folder_of self.now) }
        ensures normal { IfOk result (λ p. IsNormalPath p) }
    {
        match String::from_str(alloc, folder_text(self.as_str())) {
            Ok(text) => Ok(Abs { text }),
            Err(_) => Err(NoMemory),
        }
    }

    /// The last part, empty for `/`.
    pub fn base(&self) -> &[u8]
        ensures { result.now ≡ base_of self.now }
    {
        base_text(self.as_str()).as_bytes()
    }

    /// The same path.
    pub fn copy(&self, alloc: Global) -> Result<Abs, NoMemory>
        ensures { IfOk result (λ p. p ≡ self.now) }
    {
        match String::from_str(alloc, self.as_str()) {
            Ok(text) => Ok(Abs { text }),
            Err(_) => Err(NoMemory),
        }
    }

    /// The path's text.
    pub fn as_str(&self) -> &str
        ensures text { result.now ≡ self.now }
        ensures normal { IsNormalPath self.now }
    {
        self.text.as_str()
    }
}

/// The text of a path, where it has no fault.
#[tactic(auto, unfolding(crate::specs::Path::path_fault))]
fn checked(text: &[u8]) -> Result<&str, PathFault>
    ensures { MatchResult result
        (λ s. (s.now ≡ text.now) × (path_fault text.now ≡ None))
        (λ e. path_fault text.now ≡ Some e) }
{
    if text.is_empty() {
        return Err(PathFault::Empty);
    }
    if !begins_at_root(text) {
        return Err(PathFault::Relative);
    }
    if has_nul(text) {
        return Err(PathFault::HasNul);
    }
    match text_of(text) {
        Some(text) => Ok(text),
        None => Err(PathFault::NotText),
    }
}
