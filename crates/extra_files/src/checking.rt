//! Whether a text is a desktop entry file that says what is demanded. Definition:
//! `specs/Faults.antt`.

ghost use Rattle.std.specs.Prelude.{◌≡◌, IfOk, option_copied};
ghost use Rattle.desk_entry.specs.Lines.{text_or_none};
ghost use Rattle.extra_files.specs.Copying.{IsTextCheck, stop_of_reading};
ghost use Rattle.extra_files.specs.Faults.{refusal_of_check};

use build_plan::BuildStop;
use desk_entry::{CheckFault, DeskFault, Entries, check_entry, exec_word, read_entry, value_of};
use load_model::{Name, NoMemory};
use refusals::{FileRefusal, Refusal};
use std::alloc::Global;

/// Whether a text is a desktop entry file for one of these programs and an icon of this stem. The
/// first fault is answered.
pub fn check_text(
    alloc: Global,
    text: &[u8],
    programs: &[Name],
    stem: &[u8],
) -> Result<(), BuildStop>
    ensures { IsTextCheck text.now programs.now stem.now result }
{
    let entries = match read_entry(alloc, text) {
        Ok(entries) => entries,
        Err(fault) => return Err(stop_of_reading(fault)),
    };
    let Err(fault) = check_entry(&entries, programs, stem) else {
        return Ok(());
    };
    match refusal_of_check(alloc, &entries, fault) {
        Ok(refusal) => Err(BuildStop::Refused(Refusal::Files(refusal))),
        Err(_) => Err(BuildStop::NoMemory),
    }
}

/// The text is no desktop entry file.
fn stop_of_reading(fault: DeskFault) -> BuildStop
    ensures { result ≡ stop_of_reading fault }
{
    let refusal = match fault {
        DeskFault::NotUtf8 => FileRefusal::DeskNotUtf8,
        DeskFault::Line(number) => FileRefusal::DeskLine(number),
        DeskFault::NoGroup => FileRefusal::NoGroup,
        DeskFault::TwoGroups(number) => FileRefusal::TwoGroups(number),
        DeskFault::TwoKeys(number) => FileRefusal::TwoKeys(number),
        DeskFault::NoMemory => return BuildStop::NoMemory,
    };
    BuildStop::Refused(Refusal::Files(refusal))
}

/// The first group does not say what is demanded.
fn refusal_of_check(
    alloc: Global,
    entries: &Entries,
    fault: CheckFault,
) -> Result<FileRefusal, NoMemory>
    ensures { IfOk result (λ refusal. refusal ≡ refusal_of_check entries.now.pairs fault) }
{
    match fault {
        CheckFault::MissingKey(key) => Ok(FileRefusal::DeskMissingKey(key)),
        CheckFault::ExecUnknown => {
            let word = text_or_none(alloc, exec_word(entries))?;
            Ok(FileRefusal::ExecUnknown(word))
        }
        CheckFault::IconDiffers => {
            let value = text_or_none(alloc, value_of(entries, b"Icon"))?;
            Ok(FileRefusal::IconDiffers(value))
        }
    }
}

fn text_or_none(alloc: Global, text: Option<&[u8]>) -> Result<Name, NoMemory>
    ensures { IfOk result (λ name. name ≡ text_or_none (option_copied text.entry)) }
{
    match text {
        Some(text) => Name::from_bytes(alloc, text),
        None => Name::from_bytes(alloc, b""),
    }
}
