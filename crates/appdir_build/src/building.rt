//! A configuration made into the files of a directory. Definition: `specs/Outcome.antt`.

ghost use Rattle.std.specs.Prelude.{◌≡◌, All, IfOk};
ghost use Rattle.appdir_files.specs.Writing.{IsProbed};
ghost use Rattle.ports.specs.View.{OnlyReads};
ghost use Rattle.build_plan.specs.Building.{IsBuilding};
ghost use Rattle.app_config.specs.Ready.{AreTogether};
ghost use Rattle.build_plan.specs.Deciding.{IsSafePlan, OpensFileNames, building_of};
ghost use Rattle.build_plan.specs.Steps.{IsStepAnswer};
ghost use Rattle.build_texts.specs.Texts.{record_in};
ghost use Rattle.host_record.specs.Grammar.{record_text};
ghost use Rattle.appdir_build.specs.Outcome.{SourceMeets};
ghost use Rattle.appdir_build.specs.Writing.{AreWritten, Builds};

use crate::assembling::assembled;
use crate::built::Built;
use crate::refusing::stop_of_listing;
use crate::writing::{Written, written_objects};
use app_config::Config;
use build_plan::{BuildStop, Plan, decide};
use build_texts::record_of_plan;
use extra_files::extra_items;
use host_record::write_record;
use load_model::Text;
use ports::Tree;
use source_hosts::try_source;
use std::alloc::Global;

/// What a configuration comes to over a tree: the files of its directory, or the first refusal.
///
/// Each program and library is read once to be loaded, once more where it is rewritten, and a host
/// library once more to be tried as that of a host.
pub fn build<T: Tree>(alloc: Global, config: &Config, tree: &mut T) -> Result<Built, BuildStop>
    requires opens { OpensFileNames config.now }
    requires entry { AreTogether config.now.desktop config.now.icon }
    ensures answer { IsStepAnswer (T.seen tree.old) (T.seen tree.new)
        (λ world outcome. Builds world config.now outcome) result }
    ensures probed { IfOk result
        (λ built. All (IsProbed (T.seen tree.old).told) built.items) }
    ensures only_reads { OnlyReads (T.seen tree.old) (T.seen tree.new) }
{
    match decide(alloc, config, tree) {
        Ok(plan) => tried(alloc, config, tree, plan),
        Err(stop) => Err(stop),
    }
}

/// The files of what is decided, where the tree is itself a host for them.
fn tried<T: Tree>(
    alloc: Global,
    config: &Config,
    tree: &mut T,
    plan: Plan,
) -> Result<Built, BuildStop>
    requires entry { AreTogether config.now.desktop config.now.icon }
    requires safe { IsSafePlan config.now plan }
    ensures answer { IsStepAnswer (T.seen tree.old) (T.seen tree.new) (λ world outcome.
        IsBuilding world config.now (building_of plan) → Builds world config.now outcome) result }
    ensures probed { IfOk result
        (λ built. All (IsProbed (T.seen tree.old).told) built.items) }
    ensures only_reads { OnlyReads (T.seen tree.old) (T.seen tree.new) }
{
    let Ok(record) = record_of_plan(alloc, config, &plan) else {
        return Err(BuildStop::NoMemory);
    };
    match try_source(alloc, config, tree, &plan, &record) {
        Ok(()) => match write_record(alloc, &record) {
            Ok(text) => built_by(alloc, config, tree, plan, text),
            Err(_) => Err(BuildStop::NoMemory),
        },
        Err(stop) => Err(stop),
    }
}

/// The files of what is decided, with the text of its record.
fn built_by<T: Tree>(
    alloc: Global,
    config: &Config,
    tree: &mut T,
    plan: Plan,
    record_bytes: Text,
) -> Result<Built, BuildStop>
    requires entry { AreTogether config.now.desktop config.now.icon }
    requires safe { IsSafePlan config.now plan }
    requires recorded { record_bytes ≡ record_text (record_in (building_of plan)) }
    ensures answer { IsStepAnswer (T.seen tree.old) (T.seen tree.new) (λ world outcome.
        IsBuilding world config.now (building_of plan)
        → SourceMeets world config.now (building_of plan)
        → Builds world config.now outcome) result }
    ensures probed { IfOk result
        (λ built. All (IsProbed (T.seen tree.old).told) built.items) }
    ensures only_reads { OnlyReads (T.seen tree.old) (T.seen tree.new) }
{
    match written_objects(alloc, config, tree, &plan) {
        Ok(written) => furnished(alloc, config, tree, plan, record_bytes, written),
        Err(stop) => Err(stop),
    }
}

/// The files of what is written, with what lies beside it.
fn furnished<T: Tree>(
    alloc: Global,
    config: &Config,
    tree: &mut T,
    plan: Plan,
    record_bytes: Text,
    written: Written,
) -> Result<Built, BuildStop>
    requires entry { AreTogether config.now.desktop config.now.icon }
    requires safe { IsSafePlan config.now plan }
    requires recorded { record_bytes ≡ record_text (record_in (building_of plan)) }
    ensures answer { IsStepAnswer (T.seen tree.old) (T.seen tree.new) (λ world outcome.
        IsBuilding world config.now (building_of plan)
        → SourceMeets world config.now (building_of plan)
        → AreWritten world config.now plan written
        → Builds world config.now outcome) result }
    ensures probed { All (IsProbed (T.seen tree.old).told) written.programs
        → All (IsProbed (T.seen tree.old).told) written.libs
        → IfOk result (λ built. All (IsProbed (T.seen tree.old).told) built.items) }
    ensures only_reads { OnlyReads (T.seen tree.old) (T.seen tree.new) }
{
    match extra_items(alloc, config, tree) {
        Ok(extras) => match assembled(alloc, config, plan, record_bytes, written, extras) {
            Ok(built) => Ok(built),
            Err(stop) => Err(stop_of_listing(stop)),
        },
        Err(stop) => Err(stop),
    }
}
