//! The libraries that every host is expected to have. Definitions: `specs/Names.antt`.

ghost use Rattle.std.specs.Prelude.{◌≡◌, [], ◌∷◌, ◌++◌, IfOk, OnOk};
ghost use Rattle.app_config.specs.Names.{default_names as default_names_list, names_or_default};

use load_model::{List, Name};
use path_text::NoMemory;
use std::alloc::Global;

/// These names, or the default ones where there are none.
pub fn names_or_default(alloc: Global, names: &[Name]) -> Result<List<Name>, NoMemory>
    ensures { IfOk result (λ given. given ≡ names_or_default names.now) }
{
    if names.is_empty() {
        default_names(alloc)
    } else {
        copied_names(alloc, names)
    }
}

/// The libraries that every host is expected to have, where no others are named.
pub fn default_names(alloc: Global) -> Result<List<Name>, NoMemory>
    ensures { IfOk result (λ names. names ≡ default_names_list) }
{
    let mut names = List::new(alloc);
    push_default_names(alloc, &mut names)?;
    Ok(names)
}

fn push_default_names(alloc: Global, names: &mut List<Name>) -> Result<(), NoMemory>
    requires { names.old ≡ [] }
    ensures { OnOk result (names.new ≡ default_names_list) }
{
    push_name(alloc, names, b"ld-linux-x86-64.so.2")?;
    push_name(alloc, names, b"libc.so.6")?;
    push_name(alloc, names, b"libm.so.6")?;
    push_name(alloc, names, b"libdl.so.2")?;
    push_name(alloc, names, b"libpthread.so.0")?;
    push_name(alloc, names, b"librt.so.1")?;
    push_name(alloc, names, b"libresolv.so.2")?;
    push_name(alloc, names, b"libutil.so.1")
}

/// Adds a name at the end.
fn push_name(alloc: Global, names: &mut List<Name>, name: &[u8]) -> Result<(), NoMemory>
    ensures { OnOk result (names.new ≡ names.old ++ name.now ∷ []) }
{
    let name = Name::from_bytes(alloc, name)?;
    names.push(name)
}

/// The same names.
fn copied_names(alloc: Global, names: &[Name]) -> Result<List<Name>, NoMemory>
    ensures { IfOk result (λ copies. copies ≡ names.now) }
{
    let mut copies = List::new(alloc);
    'copy: for name in names {
        copies.push(name.copy(alloc)?)?;
    }
    Ok(copies)
}
