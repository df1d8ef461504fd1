//! The texts about a build: what it demands of a host, and what each reference binds to.
//! Definitions: `specs/Texts.antt`.

ghost use Rattle.std.specs.Prelude.{◌≡◌, All, IfOk, length, map};
ghost use Rattle.host_record.specs.Canonical.{IsCanonical};
ghost use Rattle.load_model.specs.Bindings.{IsBindOver, offered_by};
ghost use Rattle.load_model.specs.Opening.{AreFew};
ghost use Rattle.load_model.specs.Runs.{IsRunOver};
ghost use Rattle.load_model.specs.declared.runs.Replay.{Replay};
ghost use Rattle.build_plan.specs.Deciding.{IsSafePlan, building_of};
ghost use Rattle.build_texts.specs.Places.{all_places};
ghost use Rattle.build_texts.specs.Texts.{IsReport, IsReportAt, record_in, replay_in};

use crate::counts::Counts;
use crate::places::{Libraries, all_places, program_places};
use crate::reports::Report;
use app_config::Config;
use bind_report::report;
use build_plan::Plan;
use build_runs::LoadedRuns;
use hash_lookup::Tables;
use host_list::record_of;
use host_record::Record;
use load_model::{Face, List, Name, NoMemory, Replay, Run};
use loader_replay::binds_of;
use std::alloc::Global;

/// What a build demands of a host.
pub fn record_of_plan(alloc: Global, config: &Config, plan: &Plan) -> Result<Record, NoMemory>
    requires { IsSafePlan config.now plan.now }
    ensures demands { IfOk result (λ made. made ≡ record_in (building_of plan.now)) }
    // So it has a text.
    ensures canonical { IfOk result IsCanonical }
{
    record_of(
        alloc,
        plan.loads.table.faces(),
        plan.loads.table.tables(),
        plan.loads.runs.as_slice(),
        &plan.split,
    )
}

/// What the references of programs and bundled libraries bind to.
pub fn report_of(alloc: Global, config: &Config, plan: Plan) -> Result<Report, NoMemory>
    requires { IsSafePlan config.now plan }
    ensures { IfOk result (IsReport config.now (building_of plan)) }
{
    let places = places_in(alloc, config, &plan)?;
    let Plan {
        loads: LoadedRuns { table, runs },
        split: _split,
        layout: _layout,
    } = plan;
    let replays = replays_of(alloc, table.faces(), table.tables(), runs)?;
    report_at(alloc, table.faces(), replays.as_slice(), &places)
}

/// The report of these load lists, whose objects have these places.
fn report_at(
    alloc: Global,
    faces: &[Face],
    replays: &[Replay],
    places: &List<List<Name>>,
) -> Result<Report, NoMemory>
    requires runs { All (λ (r : Replay). IsRunOver faces.now r.run) replays.now }
    requires few { AreFew faces.now }
    requires binds { All (λ (r : Replay). All (IsBindOver faces.now r.run) r.binds) replays.now }
    requires places { map length places.now
        ≡ map (λ (r : Replay). length r.run.objs) replays.now }
    ensures { IfOk result (IsReportAt faces.now replays.now places.now) }
{
    let text = report(alloc, replays, faces, places)?;
    let counts = Counts::of(replays, places.as_slice())?;
    Ok(Report {
        text,
        references: counts.references,
        bound: counts.bound,
    })
}

/// The places of the objects of all load lists.
#[tactic(auto, unfolding(crate::specs::Places::all_places))]
fn places_in(alloc: Global, config: &Config, plan: &Plan) -> Result<List<List<Name>>, NoMemory>
    requires { IsSafePlan config.now plan.now }
    ensures { IfOk result (λ places. places ≡ all_places config.now (building_of plan.now)) }
{
    let libraries = Libraries::of(alloc, &plan.split, &plan.layout)?;
    let programs = program_places(alloc, config)?;
    all_places(
        alloc,
        &libraries,
        plan.loads.runs.as_slice(),
        programs.as_slice(),
    )
}

/// The load lists with what their references bind to.
fn replays_of(
    alloc: Global,
    faces: &[Face],
    tables: &[Tables],
    runs: List<Run>,
) -> Result<List<Replay>, NoMemory>
    requires runs { All (IsRunOver faces.now) runs }
    requires few { AreFew faces.now }
    requires tables { map (λ t. t.offered) tables.now ≡ map offered_by faces.now }
    ensures replays { IfOk result (λ replays. replays ≡ map (replay_in faces.now) runs) }
    ensures over { IfOk result (λ replays.
        All (λ (r : Replay). All (IsBindOver faces.now r.run) r.binds) replays) }
{
    let mut replays = List::new(alloc);
    'runs: for run in runs.into_vec() {
        replays.push(replay_of(alloc, faces, tables, run)?)?;
    }
    Ok(replays)
}

/// A load list with what its references bind to.
fn replay_of(alloc: Global, faces: &[Face], tables: &[Tables], run: Run) -> Result<Replay, NoMemory>
    requires run { IsRunOver faces.now run }
    requires few { AreFew faces.now }
    requires tables { map (λ t. t.offered) tables.now ≡ map offered_by faces.now }
    ensures replay { IfOk result (λ replay. replay ≡ replay_in faces.now run) }
    ensures over { IfOk result (λ replay. All (IsBindOver faces.now run) replay.binds) }
{
    let binds = binds_of(alloc, faces, tables, &run)?;
    Ok(Replay { run, binds })
}
