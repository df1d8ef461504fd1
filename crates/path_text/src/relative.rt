//! Targets, the paths of items in a directory. The definition is in `specs/Target.antt`.

ghost use Rattle.std.specs.Prelude.{◌≡◌, IfErr, IfOk, MatchResult, None, Some};
ghost use Rattle.answers.specs.Answers.{Answers};
ghost use Rattle.path_text.specs.Target.{IsTarget, IsTargetFault, has_bad_part, has_control, is_bad_part, said_of_target, target_fault, target_of};

use crate::NoMemory;
use crate::scan::{begins_at_root, has_nul, is_idle, is_parent, text_of};
use std::alloc::Global;
use std::marker::Model;
use thiserror::Error;

/// Why a text is no target. The variants stand in the order in which they are tried.
#[derive(Clone, Copy, PartialEq, Eq, Debug, Error)]
pub enum RelFault {
    #[error("the target is empty")]
    Empty,
    #[error("the target begins with a slash")]
    Absolute,
    #[error("the target has a zero byte")]
    HasNul,
    #[error("the target is not UTF-8")]
    NotText,
    #[error("the target has a part that names nothing, or a control byte")]
    BadPart,
    #[error("no memory")]
    NoMemory,
}

/// The path of an item in a directory: parts joined with `/`, no part empty, `.` or `..`, and no
/// control byte.
#[derive(Drop)]
pub struct Rel {
    text: String,
}

impl Model for Rel {
    ghost use Rattle.std.specs.Prelude.{List, ℕ, string_bytes};

    ghost Value = { List ℕ };

    ghost use Rattle.path_text.specs.Target.{IsTarget};

    ghost view = { λ p. string_bytes p.text };

    ghost invariant = { λ p. IsTarget (string_bytes p.text) };
}

impl Rel {
    /// Reads a target, as it is. The first fault in the order of [`RelFault`] is answered.
    pub fn read(alloc: Global, text: &[u8]) -> Result<Rel, RelFault>
        ensures answer { Answers said_of_target result (target_of text.now) }
        ensures target { IfOk result (λ p. IsTarget p) }
        ensures fault { IfErr result (λ e. IsTargetFault e text.now) }
    {
        let text = match checked(text) {
            Ok(text) => text,
            Err(fault) => return Err(fault),
        };
        match String::from_str(alloc, text) {
            Ok(text) => Ok(Rel { text }),
            Err(_) => Err(RelFault::NoMemory),
        }
    }

    /// The same target.
    pub fn copy(&self, alloc: Global) -> Result<Rel, NoMemory>
        ensures { IfOk result (λ p. p ≡ self.now) }
    {
        match String::from_str(alloc, self.as_str()) {
            Ok(text) => Ok(Rel { text }),
            Err(_) => Err(NoMemory),
        }
    }

    /// The target's text.
    pub fn as_str(&self) -> &str
        ensures text { result.now ≡ self.now }
        ensures target { IsTarget self.now }
    {
        self.text.as_str()
    }
}

/// The text of a target, where it has no fault.
#[tactic(auto, unfolding(crate::specs::Target::target_fault))]
fn checked(text: &[u8]) -> Result<&str, RelFault>
    ensures { MatchResult result
        (λ s. (s.now ≡ text.now) × (target_fault text.now ≡ None))
        (λ e. target_fault text.now ≡ Some e) }
{
    if text.is_empty() {
        return Err(RelFault::Empty);
    }
    if begins_at_root(text) {
        return Err(RelFault::Absolute);
    }
    if has_nul(text) {
        return Err(RelFault::HasNul);
    }
    match text_of(text) {
        None => Err(RelFault::NotText),
        Some(text) if has_bad_part(text) => Err(RelFault::BadPart),
        Some(text) => Ok(text),
    }
}

fn has_bad_part(text: &str) -> bool
    ensures { result ≡ has_bad_part text.now }
{
    text.split('/').any(|part| is_bad_part(part.as_bytes()))
}

fn is_bad_part(part: &[u8]) -> bool
    ensures { result ≡ is_bad_part part.now }
{
    is_idle(part) || is_parent(part) || has_control(part)
}

fn has_control(part: &[u8]) -> bool
    ensures { result ≡ has_control part.now }
{
    part.iter().any(|c| *c < b' ')
}
