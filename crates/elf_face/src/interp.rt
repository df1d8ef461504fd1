//! The program interpreter.
//!
//! System V gABI, Program Interpreter.

ghost use Rattle.std.specs.Prelude.{◌≡◌, ◌≤◌, length, option_map};
ghost use Rattle.std.specs.List.{find};
ghost use Rattle.std.specs.Option.{option_copied};
ghost use Rattle.answers.specs.Answers.{TellsBy};
ghost use Rattle.byte_view.specs.Headers.{file_end, is_interp};
ghost use Rattle.byte_view.specs.Sound.{IsReadFrom};
ghost use Rattle.elf_face.specs.Faults.{flaw_of};
ghost use Rattle.load_model.specs.Faces.{bad_interp, interp_of, path_in};

use crate::faults::{FaceFault, bad_name};
use crate::texts::{before_zero, is_text};
use byte_view::Segment;
use byte_view::constants::PT_INTERP;
use elf_headers::Elf;

fn first_interp(segments: &[Segment]) -> Option<Segment>
    ensures { result ≡ find is_interp segments.now }
{
    segments.iter().copied().find(|s| s.kind == PT_INTERP)
}

/// The path in a segment: its bytes up to the first zero byte.
fn path_in<'a>(bytes: &'a [u8], s: &Segment) -> &'a [u8]
    requires { file_end s.now ≤ length bytes.now }
    ensures { result.now ≡ path_in bytes.now s.now }
{
    let rest = &bytes[s.offset as usize..];
    before_zero(&rest[..s.filesz as usize])
}

/// The path of the interpreter, where the file names one.
#[tactic(auto, unfolding(load_model::specs::Faces::interp_of), using(crate::proofs::Within::interp_within))]
pub(crate) fn interp_of<'a>(elf: &Elf, bytes: &'a [u8]) -> Option<&'a [u8]>
    requires { IsReadFrom elf.now bytes.now }
    ensures { option_copied result ≡ interp_of bytes.now }
{
    match first_interp(elf.segments()) {
        Some(segment) => Some(path_in(bytes, &segment)),
        None => None,
    }
}

/// Is the path of the interpreter a text?
#[tactic(auto, using(crate::proofs::Within::interp_within))]
pub(crate) fn check_interp(elf: &Elf, bytes: &[u8]) -> Result<(), FaceFault>
    requires { IsReadFrom elf.now bytes.now }
    ensures { TellsBy flaw_of result (bad_interp bytes.now) }
{
    match first_interp(elf.segments()) {
        Some(segment) if !is_text(path_in(bytes, &segment)) => Err(bad_name(segment.offset)),
        _ => Ok(()),
    }
}
