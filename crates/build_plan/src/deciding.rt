//! What is decided of a configuration. Definitions: `specs/Building.antt` and
//! `specs/Deciding.antt`.

ghost use Rattle.std.specs.Prelude.{◌≡◌, All, IfOk, Ok};
ghost use Rattle.lib_closure.specs.Splits.{split_of};
ghost use Rattle.load_model.specs.Runs.{IsRunOver};
ghost use Rattle.load_model.specs.declared.runs.Run.{Run};
ghost use Rattle.path_text.specs.FileName.{IsFileName};
ghost use Rattle.ports.specs.View.{OnlyReads};
ghost use Rattle.build_plan.specs.Deciding.{Decides, IsPlanned, IsSafePlan, OpensFileNames};
ghost use Rattle.build_plan.specs.Steps.{IsStepAnswer};

use crate::plans::Plan;
use crate::refusing::{stop_of_closure, stop_of_loads, stop_of_name};
use crate::starts::starts_in;
use crate::stops::BuildStop;
use app_config::Config;
use build_runs::{LoadedRuns, load_all};
use lib_closure::{Split, split};
use name_layout::name_all;
use ports::Tree;
use std::alloc::Global;

/// Loads the programs of a configuration, splits what they load, and names what is bundled.
pub fn decide<T: Tree>(alloc: Global, config: &Config, tree: &mut T) -> Result<Plan, BuildStop>
    requires { OpensFileNames config.now }
    ensures answer { IsStepAnswer (T.seen tree.old) (T.seen tree.new)
        (λ world outcome. Decides world config.now outcome) result }
    ensures safe { IfOk result (IsSafePlan config.now) }
    ensures only_reads { OnlyReads (T.seen tree.old) (T.seen tree.new) }
{
    let starts = match starts_in(alloc, config) {
        Ok(starts) => starts,
        Err(_) => return Err(BuildStop::NoMemory),
    };
    match load_all(alloc, tree, &config.setting, starts.as_slice()) {
        Ok(loads) => split_plan(alloc, config, loads),
        Err(stop) => Err(stop_of_loads(stop)),
    }
}

/// Splits what is loaded.
fn split_plan(alloc: Global, config: &Config, loads: LoadedRuns) -> Result<Plan, BuildStop>
    requires over { All (IsRunOver loads.table.faces) loads.runs }
    requires opens { All (λ (run : Run). All IsFileName run.opens) loads.runs }
    ensures { IsPlanned config.now loads result }
{
    match split(
        alloc,
        loads.table.faces(),
        loads.runs.as_slice(),
        config.names.as_slice(),
    ) {
        Ok(split) => named_plan(alloc, config, loads, split),
        Err(stop) => Err(stop_of_closure(stop)),
    }
}

/// Names what is bundled.
fn named_plan(
    alloc: Global,
    config: &Config,
    loads: LoadedRuns,
    split: Split,
) -> Result<Plan, BuildStop>
    requires over { All (IsRunOver loads.table.faces) loads.runs }
    requires opens { All (λ (run : Run). All IsFileName run.opens) loads.runs }
    requires split { split_of loads.table.faces loads.runs config.now.names ≡ Ok split }
    ensures { IsPlanned config.now loads result }
{
    match name_all(
        alloc,
        loads.table.faces(),
        loads.runs.as_slice(),
        &split,
        config.names.as_slice(),
    ) {
        Ok(layout) => Ok(Plan {
            loads,
            split,
            layout,
        }),
        Err(stop) => Err(stop_of_name(stop)),
    }
}
