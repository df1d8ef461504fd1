//! Makes the record of a document's build, writes it and reads it again, and says when each is done,
//! so that who reads these lines as they come can tell how long each took; the text comes last.
#![tactic(auto)]

mod steps;

use build_files::{BuildCase, runs_of};
use case_rows::Fault;
use load_files::{cases_of, names_of, opener_of, setting_of};
use load_model::Opener;
use std::io;
use steps::split_runs;
use toml::{Table, Value};

fn main(rt: HostRuntime) -> io::Result<()> {
    let text = io::read_to_string(rt.alloc(), rt.reader())?;
    match toml::table_from_str(rt.alloc(), text.as_str()) {
        Ok(table) => run_table(&rt, &table),
        Err(error) => println!(rt; "no document: {error}"),
    }
}

fn run_table(rt: &HostRuntime, table: &Table) -> io::Result<()> {
    match cases_of(table) {
        Ok(cases) => run_cases(rt, cases),
        Err(fault) => println!(rt; "no document of builds: {fault}"),
    }
}

fn run_cases(rt: &HostRuntime, cases: &[Value]) -> io::Result<()> {
    for case in cases {
        run_case(rt, case)?;
    }
    Ok(())
}

/// Loads the programs of a build, and goes on from there.
fn run_case(rt: &HostRuntime, case: &Value) -> io::Result<()> {
    match BuildCase::of(case) {
        Ok(build) => run_build(rt, &build),
        Err(fault) => println!(rt; "no build: {fault}"),
    }
}

fn run_build(rt: &HostRuntime, build: &BuildCase<'_>) -> io::Result<()> {
    match load_and_record(rt, build) {
        Ok(done) => done,
        Err(fault) => println!(rt; "no load list: {fault}"),
    }
}

fn load_and_record(rt: &HostRuntime, build: &BuildCase<'_>) -> Result<io::Result<()>, Fault> {
    let case = build.files_alone();
    let mut opener = opener_of(rt.alloc(), &case)?;
    let setting = setting_of(rt.alloc(), &case)?;
    let names = names_of(rt.alloc(), build.names)?;
    let runs = runs_of(rt.alloc(), &mut opener, &setting, build.programs)?;
    Ok(split_runs(rt, opener.faces(), runs.as_slice(), names.as_slice()))
}
