//! The lines of bindings.
//!
//! Definition: `bind_lines` of `specs/Report.antt`. References are those of the objects of the
//! host too where no place is `host`.

ghost use Rattle.std.specs.Prelude.{◌≡◌, ◌++◌, ◌<◌, All, IfSome, IsSome, OnOk, length};
ghost use Rattle.load_model.specs.Bindings.{IsBindOver, symbol_at};
ghost use Rattle.load_model.specs.Runs.{IsRunOver};
ghost use Rattle.bind_report.specs.Report.{bind_line, bind_lines, definition_text, is_host, object_place, reference_text, told_bind};

use crate::fields::{class_word, push_number, push_version};
use load_model::{Bind, Def, Face, Name, NoMemory, Run, escape_onto};
use std::alloc::Global;

/// Adds the lines of bindings, but for those whose references are of objects of the host.
#[tactic(auto, unfolding(crate::specs::Report::bind_lines))]
pub fn push_binds(
    alloc: Global,
    line: &mut Vec<u8>,
    faces: &[Face],
    run: &Run,
    places: &[Name],
    binds: &[Bind],
) -> Result<(), NoMemory>
    requires run { IsRunOver faces.now run.now }
    requires binds { All (IsBindOver faces.now run.now) binds.now }
    requires places { length places.now ≡ length run.now.objs }
    ensures { OnOk result (line.new.items
        ≡ line.old.items ++ bind_lines faces.now run.now places.now binds.now) }
{
    'binds: for bind in binds {
        push_told(alloc, line, faces, run, places, *bind)?;
    }
    Ok(())
}

/// Adds the line of a binding, unless an object of the host refers.
#[tactic(auto, unfolding(crate::specs::Report::told_bind))]
fn push_told(
    alloc: Global,
    line: &mut Vec<u8>,
    faces: &[Face],
    run: &Run,
    places: &[Name],
    bind: Bind,
) -> Result<(), NoMemory>
    requires run { IsRunOver faces.now run.now }
    requires bind { IsBindOver faces.now run.now bind }
    requires places { length places.now ≡ length run.now.objs }
    ensures { OnOk result (line.new.items
        ≡ line.old.items ++ told_bind faces.now run.now places.now bind) }
{
    if is_of_host(places, bind.obj) {
        return Ok(());
    }
    push_bind(alloc, line, faces, run, bind)
}

/// Whether the place of an object is `host`.
fn is_of_host(places: &[Name], obj: u32) -> bool
    requires { obj < length places.now }
    ensures { result ≡ is_host (object_place places.now obj) }
{
    places[obj as usize].as_bytes() == b"host".as_slice()
}

/// Adds the line of a binding.
#[tactic(auto, unfolding(crate::specs::Report::bind_line))]
fn push_bind(
    alloc: Global,
    line: &mut Vec<u8>,
    faces: &[Face],
    run: &Run,
    bind: Bind,
) -> Result<(), NoMemory>
    requires run { IsRunOver faces.now run.now }
    requires bind { IsBindOver faces.now run.now bind }
    ensures { OnOk result (line.new.items ≡ line.old.items ++ bind_line faces.now run.now bind) }
{
    line.extend_from_slice(b"bind ")?;
    push_reference(alloc, line, faces, run, bind.obj, bind.sym)?;
    line.extend_from_slice(b" ")?;
    line.extend_from_slice(class_word(bind.class))?;
    line.extend_from_slice(b" ")?;
    push_definition(alloc, line, faces, run, bind.to)?;
    line.extend_from_slice(b"\n")?;
    Ok(())
}

/// Adds the numbers of a symbol that refers, its name and its version.
#[tactic(auto, unfolding(crate::specs::Report::reference_text))]
fn push_reference(
    alloc: Global,
    line: &mut Vec<u8>,
    faces: &[Face],
    run: &Run,
    obj: u32,
    sym: u32,
) -> Result<(), NoMemory>
    requires run { IsRunOver faces.now run.now }
    requires symbol { IsSome (symbol_at faces.now run.now obj sym) }
    ensures { OnOk result (line.new.items
        ≡ line.old.items ++ reference_text faces.now run.now obj sym) }
{
    let symbol = run.symbol_of(faces, obj, sym);
    push_number(alloc, line, obj as usize)?;
    line.extend_from_slice(b" ")?;
    push_number(alloc, line, sym as usize)?;
    line.extend_from_slice(b" ")?;
    escape_onto(line, symbol.name.as_bytes())?;
    line.extend_from_slice(b" ")?;
    push_version(line, &symbol.version)
}

/// Adds the object and the version of a definition, or `none`.
fn push_definition(
    alloc: Global,
    line: &mut Vec<u8>,
    faces: &[Face],
    run: &Run,
    to: Option<Def>,
) -> Result<(), NoMemory>
    requires run { IsRunOver faces.now run.now }
    requires to { IfSome to (λ d. IsSome (symbol_at faces.now run.now d.obj d.sym)) }
    ensures { OnOk result (line.new.items
        ≡ line.old.items ++ definition_text faces.now run.now to) }
{
    match to {
        Some(def) => {
            let symbol = run.symbol_of(faces, def.obj, def.sym);
            push_number(alloc, line, def.obj as usize)?;
            line.extend_from_slice(b" ")?;
            push_version(line, &symbol.version)
        }
        None => {
            line.extend_from_slice(b"none")?;
            Ok(())
        }
    }
}
