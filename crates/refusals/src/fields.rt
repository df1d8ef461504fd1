//! Texts with escaped fields in them. Definitions: `specs/Fields.antt`.

ghost use Rattle.std.specs.Prelude.{◌≡◌, [], ◌++◌, IfOk};
ghost use Rattle.std.specs.Fmt.{decimal};
ghost use Rattle.load_model.specs.Escaping.{escaped};
ghost use Rattle.refusals.specs.Fields.{with_field, with_fields, with_number};

use load_model::{Text, escape};
use path_text::NoMemory;
use std::alloc::Global;

/// A text with an escaped field in its middle.
pub fn with_field(
    alloc: Global,
    before: &[u8],
    field: &[u8],
    after: &[u8],
) -> Result<Text, NoMemory>
    ensures { IfOk result (λ text. text ≡ with_field before.now field.now after.now) }
{
    let field = escape(alloc, field)?;
    let mut text = Vec::from_slice(alloc, before)?;
    text.extend_from_slice(field.as_bytes())?;
    text.extend_from_slice(after)?;
    Ok(Text::from_vec(text))
}

/// A text with two escaped fields, which ends with the second.
pub fn with_fields(
    alloc: Global,
    before: &[u8],
    field: &[u8],
    between: &[u8],
    other: &[u8],
) -> Result<Text, NoMemory>
    ensures { IfOk result
        (λ text. text ≡ with_fields before.now field.now between.now other.now []) }
{
    let end = with_field(alloc, between, other, b"")?;
    with_field(alloc, before, field, end.as_bytes())
}

/// A text that ends with a number.
pub fn with_number(alloc: Global, before: &[u8], number: u32) -> Result<Text, NoMemory>
    ensures { IfOk result (λ text. text ≡ with_number before.now number) }
{
    let number = format!(in alloc; "{number}")?;
    let mut text = Vec::from_slice(alloc, before)?;
    text.extend_from_slice(number.as_bytes())?;
    Ok(Text::from_vec(text))
}
