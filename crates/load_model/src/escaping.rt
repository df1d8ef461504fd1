//! Names and paths as fields of a line, as `specs/Escaping.antt` says.

ghost use Rattle.std.specs.Prelude.{◌≡◌, ◌<◌, ◌∷◌, [], ◌++◌, ℕ, List, IfOk, OnOk};
ghost use Rattle.load_model.specs.Escaping.{AreBytes, IsField, escaped, escaped_byte, hex_digit};

use crate::Text;
use path_text::NoMemory;
use std::alloc::Global;

/// The text of a name or a path in a line: each byte outside 0x21 to 0x7e, and `\`, is `\xHH` with
/// two lower-case digits, an empty text is `\e`, and the text `-` is `\x2d`.
pub fn escape(alloc: Global, bytes: &[u8]) -> Result<Text, NoMemory>
    ensures { IfOk result (λ text. text ≡ escaped bytes.now) }
{
    let mut line = Vec::new(alloc);
    escape_onto(&mut line, bytes)?;
    Ok(Text::from_vec(line))
}

/// Adds the text of a name or a path at the end of a line.
pub fn escape_onto(line: &mut Vec<u8>, bytes: &[u8]) -> Result<(), NoMemory>
    ensures { OnOk result (line.new.items ≡ line.old.items ++ escaped bytes.now) }
{
    if bytes.is_empty() {
        line.extend_from_slice(b"\\e")?;
        return Ok(());
    }
    if bytes == b"-".as_slice() {
        line.extend_from_slice(b"\\x2d")?;
        return Ok(());
    }
    for byte in bytes {
        push_escaped(line, *byte)?;
    }
    Ok(())
}

/// What is escaped can stand as a field of a line, and tells the bytes.
pub fn escape_is_field()
    ensures field { (bytes : List ℕ) → AreBytes bytes → IsField (escaped bytes) }
    ensures told { (xs ys : List ℕ)
        → AreBytes xs → AreBytes ys → escaped xs ≡ escaped ys → xs ≡ ys }
{}

/// Adds a byte as it stands in a line.
fn push_escaped(line: &mut Vec<u8>, byte: u8) -> Result<(), NoMemory>
    ensures { OnOk result (line.new.items ≡ line.old.items ++ escaped_byte byte) }
{
    if (0x21..=0x7e).contains(&byte) && byte != b'\\' {
        line.extend_from_slice(&[byte])?;
    } else {
        line.extend_from_slice(&[b'\\', b'x', digit(byte / 16), digit(byte % 16)])?;
    }
    Ok(())
}

/// A digit of base 16, in lower case.
fn digit(value: u8) -> u8
    requires { value < 16 }
    ensures { result ≡ hex_digit value }
{
    if value < 10 {
        b'0' + value
    } else {
        b'a' + (value - 10)
    }
}
