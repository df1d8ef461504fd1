//! The load lists of the programs of a case, over one table of faces, their split, and the names of
//! its libraries.

ghost use Rattle.std.specs.Prelude.{◌≡◌, All, IfOk, Ok};
ghost use Rattle.std.specs.List.{list_all};
ghost use Rattle.lib_closure.specs.Splits.{split_of};
ghost use Rattle.load_model.specs.Opening.{OnlyGrew};
ghost use Rattle.load_model.specs.Runs.{IsRunOver};
ghost use Rattle.path_text.specs.FileName.{is_file_name_text};

use crate::case::Started;
use case_rows::Fault;
use lib_closure::{ClosureStop, Split, split};
use load_files::{names_of, path_of};
use load_model::{Face, Name, Opener, Run, Setting};
use load_order::load;
use name_layout::{Layout, NameStop, name_all};
use path_text::is_file_name;
use std::alloc::Global;
use toml::Value;

/// What the programs of a case come to: a split and the names of its libraries, or a clash.
#[derive(Drop)]
pub enum Outcome {
    Named(Split, Result<Layout, NameStop>),
    Clash(ClosureStop),
}

/// What these programs come to, by the names of the host list.
pub fn outcome_of<P: Opener>(
    alloc: Global,
    opener: &mut P,
    setting: &Setting,
    programs: &[Value],
    names: &[Name],
) -> Result<Outcome, Fault>
    requires { (P.seen opener.old).machine ≡ setting.now.machine }
{
    let runs = runs_of(alloc, opener, setting, programs)?;
    outcome_of_runs(alloc, opener.faces(), runs.as_slice(), names)
}

/// What these load lists come to.
fn outcome_of_runs(
    alloc: Global,
    faces: &[Face],
    runs: &[Run],
    names: &[Name],
) -> Result<Outcome, Fault>
    requires { All (IsRunOver faces.now) runs.now }
{
    match split(alloc, faces, runs, names) {
        Ok(split) => named(alloc, faces, runs, split, names),
        Err(stop) => Ok(Outcome::Clash(stop)),
    }
}

/// The split with the names of its libraries.
fn named(
    alloc: Global,
    faces: &[Face],
    runs: &[Run],
    split: Split,
    names: &[Name],
) -> Result<Outcome, Fault>
    requires runs { All (IsRunOver faces.now) runs.now }
    requires split { split_of faces.now runs.now names.now ≡ Ok split }
{
    if open_file_names(runs) {
        let layout = name_all(alloc, faces, runs, &split, names);
        Ok(Outcome::Named(split, layout))
    } else {
        Err(Fault::Field("opens"))
    }
}

/// Whether all opened names are file names.
fn open_file_names(runs: &[Run]) -> bool
    ensures { result ≡ list_all (λ run. list_all is_file_name_text run.opens) runs.now }
{
    runs.iter().all(|run| opens_file_names(run))
}

/// Whether the opened names of a program are file names.
fn opens_file_names(run: &Run) -> bool
    ensures { result ≡ list_all is_file_name_text run.now.opens }
{
    let names = run.opens.as_slice();
    names.iter().all(|name| is_file_name(name.as_bytes()))
}

/// The load lists of these programs.
fn runs_of<P: Opener>(
    alloc: Global,
    opener: &mut P,
    setting: &Setting,
    programs: &[Value],
) -> Result<Vec<Run>, Fault>
    requires { (P.seen opener.old).machine ≡ setting.now.machine }
    ensures { IfOk result (λ runs. All (IsRunOver (P.seen opener.new).faces) runs.items) }
{
    let mut runs = Vec::new(alloc);
    for program in programs {
        let run = run_of(alloc, opener, setting, program)?;
        match runs.push(run) {
            Ok(()) => {}
            Err(_) => return Err(Fault::NoMemory),
        }
    }
    Ok(runs)
}

/// The load list of a program.
#[tactic(auto, using(load_order::proofs::WalkingAsks::grew_not))]
fn run_of<P: Opener>(
    alloc: Global,
    opener: &mut P,
    setting: &Setting,
    program: &Value,
) -> Result<Run, Fault>
    requires { (P.seen opener.old).machine ≡ setting.now.machine }
    ensures run { IfOk result (λ run. IsRunOver (P.seen opener.new).faces run) }
    ensures grew { OnlyGrew (P.seen opener.old) (P.seen opener.new) }
{
    let started = Started::of(program)?;
    let start = path_of(alloc, started.path)?;
    let opens = names_of(alloc, started.opens)?;
    match load(alloc, opener, setting, &start, opens.as_slice()) {
        Ok(run) => Ok(run),
        Err(_) => Err(Fault::Field("load list")),
    }
}
