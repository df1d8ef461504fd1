//! Fields of a line, as `specs/Fields.antt` says.

ghost use Rattle.std.specs.Prelude.{IfOk};
ghost use Rattle.host_record.specs.Fields.{IsAnswerField, IsBehind, IsClassField, IsCut, IsNumber, IsPathField, IsVersionField};

use crate::records::Answer;
use crate::unescaping::unescape;
use bstr::ByteSlice;
use load_model::{Name, NoMemory};
use path_text::{Abs, PathFault};
use std::alloc::Global;

/// What stands before the first such byte and behind it.
pub(crate) fn cut(text: &[u8], byte: u8) -> Option<(&[u8], &[u8])>
    ensures { IsCut text.now byte result }
{
    let at = text.find_byte(byte)?;
    Some((&text[..at], &text[at + 1..]))
}

/// What stands behind these words.
pub(crate) fn behind<'a>(text: &'a [u8], words: &[u8]) -> Option<&'a [u8]>
    ensures { IsBehind text.now words.now result }
{
    if text.starts_with(words) {
        Some(&text[words.len()..])
    } else {
        None
    }
}

/// The number of which this is the decimal form, if it is at most 65,535.
pub(crate) fn number(alloc: Global, text: &[u8]) -> Result<Option<u16>, NoMemory>
    ensures { IfOk result (λ n. IsNumber text.now n) }
{
    let Ok(digits) = str::from_utf8(text) else {
        return Ok(None);
    };
    let Ok(n) = digits.parse::<u16>() else {
        return Ok(None);
    };
    let again = format!(in alloc; "{n}")?;
    if again.as_str().as_bytes() == text {
        Ok(Some(n))
    } else {
        Ok(None)
    }
}

/// A path in normal form.
pub(crate) fn path(alloc: Global, field: &[u8]) -> Result<Option<Abs>, NoMemory>
    ensures { IfOk result (λ path. IsPathField field.now path) }
{
    let Some(bytes) = unescape(alloc, field)? else {
        return Ok(None);
    };
    match Abs::read(alloc, bytes.as_bytes()) {
        Ok(path) => {
            if path.as_str().as_bytes() == bytes.as_bytes() {
                Ok(Some(path))
            } else {
                Ok(None)
            }
        }
        Err(fault) => match fault {
            PathFault::NoMemory => Err(NoMemory),
            PathFault::Empty | PathFault::Relative | PathFault::HasNul | PathFault::NotText => Ok(
                None,
            ),
        },
    }
}

/// A version, or `-` for none.
pub(crate) fn version(alloc: Global, field: &[u8]) -> Result<Option<Option<Name>>, NoMemory>
    ensures { IfOk result (λ v. IsVersionField field.now v) }
{
    if field == b"-".as_slice() {
        return Ok(Some(None));
    }
    match unescape(alloc, field)? {
        Some(name) => Ok(Some(Some(name))),
        None => Ok(None),
    }
}

/// Whether a class is that of a call.
pub(crate) fn is_call(field: &[u8]) -> Option<bool>
    ensures { IsClassField field.now result }
{
    if field == b"c".as_slice() {
        Some(true)
    } else if field == b"p".as_slice() {
        Some(false)
    } else {
        None
    }
}

/// What a look finds.
pub(crate) fn answer(alloc: Global, field: &[u8]) -> Result<Option<Answer>, NoMemory>
    ensures { IfOk result (λ answer. IsAnswerField field.now answer) }
{
    if field == b"none".as_slice() {
        return Ok(Some(Answer::Nothing));
    }
    if field == b"=-".as_slice() {
        return Ok(Some(Answer::Plain));
    }
    let Some(version) = behind(field, b"=") else {
        return Ok(None);
    };
    match unescape(alloc, version)? {
        Some(name) => Ok(Some(Answer::Version(name))),
        None => Ok(None),
    }
}
