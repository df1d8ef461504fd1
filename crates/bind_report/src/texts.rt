//! The whole text. Definition: `report_text` of `specs/Report.antt`.

ghost use Rattle.std.specs.Prelude.{◌≡◌, ◌++◌, All, IfOk, OnOk, length, map};
ghost use Rattle.load_model.specs.Bindings.{IsBindOver};
ghost use Rattle.load_model.specs.Opening.{AreFew};
ghost use Rattle.load_model.specs.Runs.{IsRunOver};
ghost use Rattle.load_model.specs.declared.runs.Replay.{Replay};
ghost use Rattle.bind_report.specs.Report.{all_lines, report_text};

use crate::programs::push_program;
use load_model::{Face, List, Name, NoMemory, Replay, Text};
use std::alloc::Global;

/// The text that tells the bindings of these programs, each with a place for each of its objects.
///
/// Takes time in proportion to the text and the number of bindings.
#[tactic(auto, unfolding(crate::specs::Report::report_text))]
pub fn report(
    alloc: Global,
    replays: &[Replay],
    faces: &[Face],
    places: &List<List<Name>>,
) -> Result<Text, NoMemory>
    requires runs { All (λ (r : Replay). IsRunOver faces.now r.run) replays.now }
    requires few { AreFew faces.now }
    requires binds { All (λ (r : Replay). All (IsBindOver faces.now r.run) r.binds) replays.now }
    requires places { map length places.now
        ≡ map (λ (r : Replay). length r.run.objs) replays.now }
    ensures { IfOk result (λ text. text ≡ report_text replays.now faces.now places.now) }
{
    let mut line = Vec::new(alloc);
    line.extend_from_slice(b"appdir-bindings 1\n")?;
    push_programs(alloc, &mut line, replays, faces, places.as_slice())?;
    line.extend_from_slice(b"end\n")?;
    Ok(Text::from_vec(line))
}

/// Adds the lines of all programs.
#[tactic(auto, unfolding(crate::specs::Report::all_lines))]
fn push_programs(
    alloc: Global,
    line: &mut Vec<u8>,
    replays: &[Replay],
    faces: &[Face],
    places: &[List<Name>],
) -> Result<(), NoMemory>
    requires runs { All (λ (r : Replay). IsRunOver faces.now r.run) replays.now }
    requires binds { All (λ (r : Replay). All (IsBindOver faces.now r.run) r.binds) replays.now }
    requires places { map length places.now
        ≡ map (λ (r : Replay). length r.run.objs) replays.now }
    ensures { OnOk result
        (line.new.items ≡ line.old.items ++ all_lines replays.now faces.now places.now) }
{
    'programs: for (number, replay) in replays.iter().enumerate() {
        push_program(alloc, line, faces, replay, places[number].as_slice())?;
    }
    Ok(())
}
