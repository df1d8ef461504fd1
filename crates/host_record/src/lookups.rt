//! What stands behind `version ` and behind `look `, as `specs/Fields.antt` says.

ghost use Rattle.std.specs.Prelude.{IfOk};
ghost use Rattle.host_record.specs.Fields.{AreFiveParts, AreLookFields, AreParts, AreVersionFields};

use crate::fields::{answer, cut, is_call, version};
use crate::lines::Lookup;
use crate::unescaping::unescape;
use load_model::{Name, NoMemory};
use std::alloc::Global;

/// The parts of a look between spaces.
#[derive(Clone, Copy)]
struct Parts<'a> {
    lib: &'a [u8],
    name: &'a [u8],
    version: &'a [u8],
    class: &'a [u8],
    answer: &'a [u8],
}

/// The library and its version.
pub(crate) fn version_fields(alloc: Global, text: &[u8]) -> Result<Option<(Name, Name)>, NoMemory>
    ensures { IfOk result (λ fields. AreVersionFields text.now fields) }
{
    let Some((lib, version)) = cut(text, b' ') else {
        return Ok(None);
    };
    let Some(lib) = unescape(alloc, lib)? else {
        return Ok(None);
    };
    let Some(version) = unescape(alloc, version)? else {
        return Ok(None);
    };
    Ok(Some((lib, version)))
}

/// The fields of a look.
pub(crate) fn look_fields(alloc: Global, text: &[u8]) -> Result<Option<Lookup>, NoMemory>
    ensures { IfOk result (λ lookup. AreLookFields text.now lookup) }
{
    match cut_in_five(text) {
        Some(parts) => lookup(alloc, text, parts),
        None => Ok(None),
    }
}

/// The look whose fields these parts are.
fn lookup(alloc: Global, text: &[u8], parts: Parts<'_>) -> Result<Option<Lookup>, NoMemory>
    requires { AreFiveParts text.now parts }
    ensures { IfOk result (λ lookup. AreLookFields text.now lookup) }
{
    let Some(call) = is_call(parts.class) else {
        return Ok(None);
    };
    let Some(lib) = unescape(alloc, parts.lib)? else {
        return Ok(None);
    };
    let Some(name) = unescape(alloc, parts.name)? else {
        return Ok(None);
    };
    let Some(version) = version(alloc, parts.version)? else {
        return Ok(None);
    };
    let Some(answer) = answer(alloc, parts.answer)? else {
        return Ok(None);
    };
    Ok(Some(Lookup {
        lib,
        name,
        version,
        call,
        answer,
    }))
}

/// The five parts between spaces.
fn cut_in_five(text: &[u8]) -> Option<Parts<'_>>
    ensures { AreParts text.now result }
{
    let Some((lib, behind_lib)) = cut(text, b' ') else {
        return None;
    };
    let Some((name, behind_name)) = cut(behind_lib, b' ') else {
        return None;
    };
    let Some((version, behind_version)) = cut(behind_name, b' ') else {
        return None;
    };
    let Some((class, answer)) = cut(behind_version, b' ') else {
        return None;
    };
    Some(Parts {
        lib,
        name,
        version,
        class,
        answer,
    })
}
