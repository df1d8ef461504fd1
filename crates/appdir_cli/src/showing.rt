//! `show`: says what a program loads, and what its references bind to. Definitions:
//! `specs/Showing.antt`.

ghost use Rattle.std.specs.Prelude.{◌≡◌, ◌∷◌, ◌++◌, [], All, IfOk, IfSome, List};
ghost use Rattle.bind_report.specs.Places.{no_places};
ghost use Rattle.build_plan.specs.Refusals.{stop_of_loads};
ghost use Rattle.build_plan.specs.Steps.{IsStepAnswer};
ghost use Rattle.deliveries.specs.Delivery.{IsAnswerProbed};
ghost use Rattle.load_model.specs.Runs.{IsRunOver};
ghost use Rattle.load_model.specs.declared.runs.Run.{Run};
ghost use Rattle.ports.specs.View.{OnlyReads};
ghost use Rattle.appdir_cli.specs.Showing.{Shows, ShowsIn, shown_program, shown_text};

use app_config::setting_of;
use appdir_build::BuildStop;
use bind_report::report;
use build_runs::{LoadedRuns, LoadsStop, Start, load_all};
use command_words::Show;
use deliveries::Answer;
use load_model::{List, Name, Obj, Replay, Run, Setting, Text};
use loader_replay::binds_of;
use path_text::{Abs, NoMemory};
use ports::Tree;
use refusals::Refusal;
use std::alloc::Global;
use tree_opener::TreeOpener;

/// `show PROGRAM [DIR ..]`: says what one program loads in these directories, and what its
/// references bind to.
pub fn show<T: Tree>(alloc: Global, tree: &mut T, command: &Show) -> Result<Answer, BuildStop>
    ensures answer { IsStepAnswer (T.seen tree.old) (T.seen tree.new)
        (λ world outcome. Shows world command.now outcome) result }
    ensures probed { IfOk result (IsAnswerProbed (T.seen tree.old).told) }
    ensures only_reads { OnlyReads (T.seen tree.old) (T.seen tree.new) }
{
    match copied_dirs(alloc, command.dirs.as_slice()) {
        Ok(dirs) => show_in(alloc, tree, &setting_of(dirs), &command.program),
        Err(_) => Err(BuildStop::NoMemory),
    }
}

/// Says it of a program as the loader of this setting has it.
fn show_in<T: Tree>(
    alloc: Global,
    tree: &mut T,
    setting: &Setting,
    program: &Abs,
) -> Result<Answer, BuildStop>
    ensures answer { IsStepAnswer (T.seen tree.old) (T.seen tree.new)
        (λ world outcome. ShowsIn setting.now world program.now outcome) result }
    ensures probed { IfOk result (IsAnswerProbed (T.seen tree.old).told) }
    ensures only_reads { OnlyReads (T.seen tree.old) (T.seen tree.new) }
{
    let program = match program_alone(alloc, program) {
        Ok(program) => program,
        Err(_) => return Err(BuildStop::NoMemory),
    };
    match load_all(alloc, tree, setting, std::slice::from_ref(&program)) {
        Ok(loaded) => match text_of(alloc, loaded) {
            Ok(text) => Ok(Answer::Says(text)),
            Err(_) => Err(BuildStop::NoMemory),
        },
        Err(stop) => Err(stop_of(stop)),
    }
}

/// What a stop of loading ends the command with.
fn stop_of(stop: LoadsStop) -> BuildStop
    ensures { result ≡ stop_of_loads stop }
{
    match stop {
        LoadsStop::Refused(refusal) => BuildStop::Refused(Refusal::Load(refusal)),
        LoadsStop::Read => BuildStop::Read,
        LoadsStop::NoMemory => BuildStop::NoMemory,
    }
}

/// A program that opens nothing.
fn program_alone(alloc: Global, path: &Abs) -> Result<Start, NoMemory>
    ensures { IfOk result (λ program. program ≡ shown_program path.now) }
{
    Ok(Start {
        path: path.copy(alloc)?,
        opens: List::new(alloc),
    })
}

/// The text that says what a program loads and binds, where there is one run alone.
fn text_of(alloc: Global, loaded: LoadedRuns) -> Result<Text, NoMemory>
    requires { All (IsRunOver loaded.table.faces) loaded.runs }
    ensures { IfOk result (λ text. (run : Run) → loaded.runs ≡ run ∷ []
        → text ≡ shown_text loaded.table.faces run) }
{
    let LoadedRuns { table, runs } = loaded;
    match last_run(runs) {
        Some(run) => run_text(alloc, &table, run),
        None => Err(NoMemory),
    }
}

fn last_run(runs: List<Run>) -> Option<Run>
    ensures { IfSome result (λ run. (front : List Run) × (runs ≡ front ++ run ∷ [])) }
{
    let mut runs = runs.into_vec();
    runs.pop()
}

/// The text that says it of a run.
#[tactic(auto, unfolding(crate::specs::Showing::shown_text))]
fn run_text(alloc: Global, table: &TreeOpener, run: Run) -> Result<Text, NoMemory>
    requires { IsRunOver table.now.faces run }
    ensures { IfOk result (λ text. text ≡ shown_text table.now.faces run) }
{
    let binds = binds_of(alloc, table.faces(), table.tables(), &run)?;
    let replay = Replay { run, binds };
    let places = listed_places(alloc, replay.run.objs.as_slice())?;
    report(alloc, std::slice::from_ref(&replay), table.faces(), &places)
}

/// The places of the objects of the one run.
fn listed_places(alloc: Global, objs: &[Obj]) -> Result<List<List<Name>>, NoMemory>
    ensures { IfOk result (λ places. places ≡ no_places objs.now ∷ []) }
{
    let mut places = List::new(alloc);
    places.push(no_places(alloc, objs)?)?;
    Ok(places)
}

/// A `-` for each object.
fn no_places(alloc: Global, objs: &[Obj]) -> Result<List<Name>, NoMemory>
    ensures { IfOk result (λ places. places ≡ no_places objs.now) }
{
    let mut places = List::new(alloc);
    for _obj in objs {
        places.push(Name::from_bytes(alloc, b"-")?)?;
    }
    Ok(places)
}

/// Copies of directories.
fn copied_dirs(alloc: Global, dirs: &[Abs]) -> Result<List<Abs>, NoMemory>
    ensures { IfOk result (λ copies. copies ≡ dirs.now) }
{
    let mut copies = List::new(alloc);
    for dir in dirs {
        copies.push(dir.copy(alloc)?)?;
    }
    Ok(copies)
}
