//! The line of which a text is that, as `IsLine` of `specs/Fields.antt` says.

ghost use Rattle.std.specs.Prelude.{IfOk};
ghost use Rattle.host_record.specs.Fields.{IsLine};

use crate::fields::{behind, number, path};
use crate::lines::Line;
use crate::lookups::{look_fields, version_fields};
use crate::unescaping::unescape;
use load_model::NoMemory;
use std::alloc::Global;

/// The line of which this is the text, if there is one. Looks come first, since most lines are.
pub(crate) fn line_of(alloc: Global, text: &[u8]) -> Result<Option<Line>, NoMemory>
    ensures { IfOk result (λ line. IsLine text.now line) }
{
    if let Some(rest) = behind(text, b"look ") {
        return Ok(look_fields(alloc, rest)?.map(Line::Ask));
    }
    if let Some(rest) = behind(text, b"version ") {
        let fields = version_fields(alloc, rest)?;
        return Ok(fields.map(|(lib, version)| Line::Require(lib, version)));
    }
    if let Some(rest) = behind(text, b"need ") {
        return Ok(unescape(alloc, rest)?.map(Line::Need));
    }
    if let Some(rest) = behind(text, b"lib ") {
        return Ok(unescape(alloc, rest)?.map(Line::Declare));
    }
    if let Some(rest) = behind(text, b"interp ") {
        return Ok(path(alloc, rest)?.map(Line::Interp));
    }
    if let Some(rest) = behind(text, b"machine ") {
        return Ok(number(alloc, rest)?.map(Line::Machine));
    }
    if text == b"appdir-host 1".as_slice() {
        return Ok(Some(Line::Head));
    }
    if text == b"end".as_slice() {
        return Ok(Some(Line::End));
    }
    Ok(None)
}
