//! A new file, made in the buffer of the old one.

ghost use Rattle.std.specs.Prelude.{◌≡◌, ◌≤◌, IfOk, OnOk, length, take, vec_len};
ghost use Rattle.elf_rewrite.specs.Pieces.{laid};

use elf_rewrite::Edit;
use load_model::{NoMemory, Text};

/// The new file of an edit, over the bytes of the old one.
pub(crate) fn laid_over(mut bytes: Vec<u8>, edit: &Edit) -> Result<Text, NoMemory>
    requires { edit.now.old_len ≡ vec_len bytes }
    ensures { IfOk result (λ text. text ≡ laid bytes.items edit.now) }
{
    grow(&mut bytes, edit.new_len())?;
    edit.apply(bytes.as_mut_slice());
    Ok(Text::from_vec(bytes))
}

/// Makes room behind the bytes, up to a length and not more.
fn grow(bytes: &mut Vec<u8>, len: usize) -> Result<(), NoMemory>
    requires { vec_len bytes.old ≤ len }
    ensures len { OnOk result (length bytes.new.items ≡ len) }
    ensures front { OnOk result (take (vec_len bytes.old) bytes.new.items ≡ bytes.old.items) }
{
    bytes.reserve_exact(len - bytes.len())?;
    bytes.resize(len, 0)?;
    Ok(())
}
