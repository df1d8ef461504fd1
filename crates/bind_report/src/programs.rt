//! The lines of a program: its objects, the names that it opens, and its bindings.
//!
//! Definition: `program_lines` of `specs/Report.antt`.

ghost use Rattle.std.specs.Prelude.{◌≡◌, ◌++◌, ◌<◌, All, OnOk, length};
ghost use Rattle.load_model.specs.Bindings.{IsBindOver};
ghost use Rattle.load_model.specs.Runs.{IsRunOver};
ghost use Rattle.bind_report.specs.Report.{load_line, load_lines, open_line, open_lines, path_at, object_place, program_line, program_lines};

use crate::bindings::push_binds;
use crate::fields::{push_number, push_place};
use load_model::{Face, Name, NoMemory, Obj, Replay, escape_onto};
use path_text::Abs;
use std::alloc::Global;

/// Adds the lines of a program, whose objects have these places.
#[tactic(auto, unfolding(crate::specs::Report::program_lines))]
pub fn push_program(
    alloc: Global,
    line: &mut Vec<u8>,
    faces: &[Face],
    replay: &Replay,
    places: &[Name],
) -> Result<(), NoMemory>
    requires run { IsRunOver faces.now replay.now.run }
    requires binds { All (IsBindOver faces.now replay.now.run) replay.now.binds }
    requires places { length places.now ≡ length replay.now.run.objs }
    ensures { OnOk result
        (line.new.items ≡ line.old.items ++ program_lines faces.now replay.now places.now) }
{
    let run = &replay.run;
    push_first(line, run.objs.as_slice(), places)?;
    push_loads(alloc, line, run.objs.as_slice(), places)?;
    push_opens(alloc, line, run.opens.as_slice(), run.roots.as_slice())?;
    push_binds(alloc, line, faces, run, places, replay.binds.as_slice())
}

/// Adds the line of the program itself, the first object.
#[tactic(auto, unfolding(crate::specs::Report::program_line))]
fn push_first(line: &mut Vec<u8>, objs: &[Obj], places: &[Name]) -> Result<(), NoMemory>
    requires some { 0 < length objs.now }
    requires places { length places.now ≡ length objs.now }
    ensures { OnOk result (line.new.items
        ≡ line.old.items ++ program_line (path_at objs.now 0) (object_place places.now 0)) }
{
    line.extend_from_slice(b"program ")?;
    escape_onto(line, objs[0].path.as_str().as_bytes())?;
    line.extend_from_slice(b" ")?;
    push_place(line, &places[0])?;
    line.extend_from_slice(b"\n")?;
    Ok(())
}

/// Adds the lines of the objects.
#[tactic(auto, unfolding(crate::specs::Report::load_lines))]
fn push_loads(
    alloc: Global,
    line: &mut Vec<u8>,
    objs: &[Obj],
    places: &[Name],
) -> Result<(), NoMemory>
    requires { length places.now ≡ length objs.now }
    ensures { OnOk result (line.new.items ≡ line.old.items ++ load_lines objs.now places.now) }
{
    'loads: for (number, obj) in objs.iter().enumerate() {
        push_load(alloc, line, number, &obj.path, &places[number])?;
    }
    Ok(())
}

/// Adds the line of an object.
#[tactic(auto, unfolding(crate::specs::Report::load_line))]
fn push_load(
    alloc: Global,
    line: &mut Vec<u8>,
    number: usize,
    path: &Abs,
    place: &Name,
) -> Result<(), NoMemory>
    ensures { OnOk result
        (line.new.items ≡ line.old.items ++ load_line number path.now place.now) }
{
    line.extend_from_slice(b"load ")?;
    push_number(alloc, line, number)?;
    line.extend_from_slice(b" ")?;
    escape_onto(line, path.as_str().as_bytes())?;
    line.extend_from_slice(b" ")?;
    push_place(line, place)?;
    line.extend_from_slice(b"\n")?;
    Ok(())
}

/// Adds the lines of the names that the program opens.
#[tactic(auto, unfolding(crate::specs::Report::open_lines))]
fn push_opens(
    alloc: Global,
    line: &mut Vec<u8>,
    opens: &[Name],
    roots: &[u32],
) -> Result<(), NoMemory>
    requires { length roots.now ≡ length opens.now }
    ensures { OnOk result (line.new.items ≡ line.old.items ++ open_lines opens.now roots.now) }
{
    'opens: for (place, name) in opens.iter().enumerate() {
        push_open(alloc, line, name, roots[place])?;
    }
    Ok(())
}

/// Adds the line of an opened name, with the number of its root.
#[tactic(auto, unfolding(crate::specs::Report::open_line))]
fn push_open(alloc: Global, line: &mut Vec<u8>, name: &Name, root: u32) -> Result<(), NoMemory>
    ensures { OnOk result (line.new.items ≡ line.old.items ++ open_line (name.now, root)) }
{
    line.extend_from_slice(b"open ")?;
    escape_onto(line, name.as_bytes())?;
    line.extend_from_slice(b" ")?;
    push_number(alloc, line, root as usize)?;
    line.extend_from_slice(b"\n")?;
    Ok(())
}
