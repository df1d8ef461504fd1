//! The bytes of which a field is the escaped form, as `specs/Unescaping.antt` says.

ghost use Rattle.std.specs.Prelude.{◌≡◌, IfOk};
ghost use Rattle.std.specs.List.{list_all};
ghost use Rattle.host_record.specs.Unescaping.{IsDigit, IsEscaped, IsFirstByte, IsWrittenByByte};
ghost use Rattle.load_model.specs.Escaping.{is_plain};

use load_model::{Name, NoMemory};
use std::alloc::Global;

/// The bytes of which this is the escaped form, if it is one.
pub fn unescape(alloc: Global, field: &[u8]) -> Result<Option<Name>, NoMemory>
    ensures { IfOk result (λ name. IsEscaped field.now name) }
{
    if field.is_empty() || field == b"-".as_slice() {
        return Ok(None);
    }
    if field == b"\\e".as_slice() {
        return Ok(Some(Name::from_bytes(alloc, b"")?));
    }
    if field == b"\\x2d".as_slice() {
        return Ok(Some(Name::from_bytes(alloc, b"-")?));
    }
    if are_plain(field) {
        return Ok(Some(Name::from_bytes(alloc, field)?));
    }
    decoded(alloc, field)
}

/// Whether each byte is written as itself.
fn are_plain(bytes: &[u8]) -> bool
    ensures { result ≡ list_all is_plain bytes.now }
{
    bytes.iter().all(|byte| is_plain_byte(*byte))
}

/// The bytes that are written one by one.
fn decoded(alloc: Global, field: &[u8]) -> Result<Option<Name>, NoMemory>
    requires { IsWrittenByByte field.now }
    ensures { IfOk result (λ name. IsEscaped field.now name) }
{
    let mut bytes = Vec::new(alloc);
    let mut rest = field;
    'bytes: while !rest.is_empty() {
        let Some((byte, more)) = first_byte(rest) else {
            return Ok(None);
        };
        if bytes.push(byte).is_err() {
            return Err(NoMemory);
        }
        rest = more;
    }
    Ok(Some(Name::from_bytes(alloc, bytes.as_slice())?))
}

/// The first byte that is written, and what follows it.
fn first_byte(field: &[u8]) -> Option<(u8, &[u8])>
    ensures { IsFirstByte field.now result }
{
    if field.is_empty() {
        return None;
    }
    if is_plain_byte(field[0]) {
        return Some((field[0], &field[1..]));
    }
    if field.len() < 4 || field[0] != b'\\' || field[1] != b'x' {
        return None;
    }
    let (Some(high), Some(low)) = (digit_value(field[2]), digit_value(field[3])) else {
        return None;
    };
    let byte = high * 16 + low;
    if is_plain_byte(byte) {
        return None;
    }
    Some((byte, &field[4..]))
}

fn is_plain_byte(byte: u8) -> bool
    ensures { result ≡ is_plain byte }
{
    (0x21..=0x7e).contains(&byte) && byte != b'\\'
}

/// The value of a digit of base 16 in lower case.
fn digit_value(digit: u8) -> Option<u8>
    ensures { IsDigit digit result }
{
    if digit.is_ascii_digit() {
        Some(digit - b'0')
    } else if (b'a'..=b'f').contains(&digit) {
        Some(digit - b'a' + 10)
    } else {
        None
    }
}
