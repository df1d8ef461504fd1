//! Names that a file can be given. The definition is in `specs/FileName.antt`.

ghost use Rattle.std.specs.Prelude.{◌≡◌, ◌↔◌, IsTrue};
ghost use Rattle.std.specs.List.{list_all};
ghost use Rattle.path_text.specs.FileName.{IsFileName, is_file_name_text, is_name_byte};

use crate::scan::{is_idle, is_parent};

/// Whether the text is a name that a file can be given: not empty, `.` or `..`, with no `/`, no
/// `$`, no byte below 32 and no byte 127.
pub fn is_file_name(text: &[u8]) -> bool
    ensures name { IsTrue result ↔ (IsFileName text.now) }
    ensures value { result ≡ is_file_name_text text.now }
{
    !(is_idle(text) || is_parent(text)) && has_name_bytes(text)
}

/// Whether each byte may stand in a name.
fn has_name_bytes(text: &[u8]) -> bool
    ensures { result ≡ list_all is_name_byte text.now }
{
    text.iter().all(|c| is_name_byte(*c))
}

fn is_name_byte(c: u8) -> bool
    ensures { result ≡ is_name_byte c }
{
    c != b'/' && c != b'$' && c >= 32 && c != 127
}
