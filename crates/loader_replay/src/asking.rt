//! The names that the objects of a run ask for.
//!
//! ld.so(8), dlopen(3). They are said in `specs/Asking.antt` of `scope_lookup`.

ghost use Rattle.std.specs.Prelude.{◌≡◌, ◌<◌, ◌++◌, IfOk, OnOk, length};
ghost use Rattle.load_model.specs.Runs.{IsRunOver, face_at};
ghost use Rattle.load_model.specs.VersionCheck.{needs_in};
ghost use Rattle.scope_lookup.specs.Asking.{asked_names, names_opened_by};

use load_model::{Face, List, Name, Run};
use path_text::NoMemory;
use std::alloc::Global;

/// The names that each object asks for: its needs, for the program followed by the opened names.
pub fn asked_of(alloc: Global, faces: &[Face], run: &Run) -> Result<List<List<Name>>, NoMemory>
    requires { IsRunOver faces.now run.now }
    ensures { IfOk result (λ asked. asked ≡ asked_names faces.now run.now) }
{
    let mut asked = List::new(alloc);
    for obj in 0..run.objs.as_slice().len() as u32 {
        asked.push(names_of(alloc, faces, run, obj)?)?;
    }
    Ok(asked)
}

/// The names that an object asks for.
fn names_of(alloc: Global, faces: &[Face], run: &Run, obj: u32) -> Result<List<Name>, NoMemory>
    requires run { IsRunOver faces.now run.now }
    requires obj { obj < length run.now.objs }
    ensures { IfOk result (λ names. names
        ≡ needs_in (face_at faces.now run.now obj) ++ names_opened_by run.now obj) }
{
    let mut names = run.face_of(faces, obj).needs.copy(alloc)?;
    if obj == 0 {
        add_names(alloc, run.opens.as_slice(), &mut names)?;
    }
    Ok(names)
}

/// Adds copies of these names.
fn add_names(alloc: Global, more: &[Name], names: &mut List<Name>) -> Result<(), NoMemory>
    ensures { OnOk result (names.new ≡ names.old ++ more.now) }
{
    for name in more {
        names.push(name.copy(alloc)?)?;
    }
    Ok(())
}
