//! Whether the tree of a build meets what the build itself demands of a host. Definition:
//! `specs/Trying.antt`.

ghost use Rattle.std.specs.Prelude.{◌≡◌};
ghost use Rattle.load_model.specs.Opening.{OnlyGrew};
ghost use Rattle.host_meeting.specs.Verdicts.{IsWhole};
ghost use Rattle.ports.specs.View.{OnlyReads};
ghost use Rattle.refusals.specs.declared.refusal.Refusal.TheVariants.{Split};
ghost use Rattle.refusals.specs.declared.split_refusal.SplitRefusal.TheVariants.{SourceNotHost};
ghost use Rattle.build_plan.specs.Deciding.{IsSafePlan, building_of};
ghost use Rattle.build_plan.specs.Steps.{IsStepAnswer};
ghost use Rattle.build_plan.specs.declared.stops.BuildStop.TheVariants.{Refused};
ghost use Rattle.build_texts.specs.Texts.{record_in};
ghost use Rattle.source_hosts.specs.Trying.{IsTried, TriesSource, stop_of_verdict};

use app_config::Config;
use build_plan::{BuildStop, Plan};
use host_list::Difference;
use host_meeting::{HostStop, Verdict, host_meets};
use host_record::Record;
use load_model::{Opener, Setting};
use ports::Tree;
use refusals::{Refusal, SplitRefusal};
use std::alloc::Global;
use tree_opener::{TreeOpener, TreeView};

/// Tries the tree of a build, with the setting of the build, as a host of its record: refuses where
/// the tree does not meet it. Files are read anew, since the libraries that a host is asked for are
/// looked for in the listed directories alone.
pub fn try_source<T: Tree>(
    alloc: Global,
    config: &Config,
    tree: &mut T,
    plan: &Plan,
    rec: &Record,
) -> Result<(), BuildStop>
    requires safe { IsSafePlan config.now plan.now }
    requires demands { rec.now ≡ record_in (building_of plan.now) }
    ensures answer { IsStepAnswer (T.seen tree.old) (T.seen tree.new)
        (λ world outcome. TriesSource world config.now (building_of plan.now) outcome) result }
    ensures only_reads { OnlyReads (T.seen tree.old) (T.seen tree.new) }
{
    let Ok(mut opener) = TreeOpener::new(alloc, config.setting.machine) else {
        return Err(BuildStop::NoMemory);
    };
    stop_of_verdict(tried(alloc, &mut opener, tree, &config.setting, rec))
}

/// What a verdict on the tree comes to.
fn stop_of_verdict(verdict: Result<Verdict, HostStop>) -> Result<(), BuildStop>
    ensures { result ≡ stop_of_verdict verdict }
{
    match verdict {
        Ok(Verdict::Meets) => Ok(()),
        Ok(Verdict::Fails(difference)) => Err(no_host(difference)),
        Err(HostStop::Read) => Err(BuildStop::Read),
        Err(HostStop::NoMemory) => Err(BuildStop::NoMemory),
    }
}

/// The tree does not meet this demand.
fn no_host(difference: Difference) -> BuildStop
    ensures { result ≡ Refused (Split (SourceNotHost difference)) }
{
    BuildStop::Refused(Refusal::Split(SplitRefusal::SourceNotHost(difference)))
}

/// The verdict on a tree; the opener keeps the faces.
fn tried<T: Tree>(
    alloc: Global,
    opener: &mut TreeOpener,
    tree: &mut T,
    setting: &Setting,
    rec: &Record,
) -> Result<Verdict, HostStop>
    requires opener { opener.old.machine ≡ setting.now.machine }
    requires machine { rec.now.machine ≡ setting.now.machine }
    requires whole { IsWhole rec.now }
    ensures answer { IsTried setting.now (T.seen tree.old).told (T.seen tree.old).faults
        (T.seen tree.new).faults rec.now result }
    ensures only_reads { OnlyReads (T.seen tree.old) (T.seen tree.new) }
{
    let mut view = TreeView { opener, tree };
    let verdict = tried_in_view(alloc, &mut view, setting, rec);
    let TreeView { opener, tree } = view;
    let _ = opener;
    let _ = tree;
    verdict
}

/// The same through a view, which still borrows the same opener and tree afterwards.
fn tried_in_view<T: Tree>(
    alloc: Global,
    view: &mut TreeView<'_, '_, T>,
    setting: &Setting,
    rec: &Record,
) -> Result<Verdict, HostStop>
    requires opener { view.old.opener.now.machine ≡ setting.now.machine }
    requires machine { rec.now.machine ≡ setting.now.machine }
    requires whole { IsWhole rec.now }
    ensures same_opener { view.new.opener.ghost_name ≡ view.old.opener.ghost_name }
    ensures same_tree { view.new.tree.ghost_name ≡ view.old.tree.ghost_name }
    ensures answer { IsTried setting.now (T.seen view.old.tree.now).told
        (T.seen view.old.tree.now).faults (T.seen view.new.tree.now).faults rec.now result }
    ensures only_reads { OnlyReads (T.seen view.old.tree.now) (T.seen view.new.tree.now) }
{
    tried_by(alloc, view, setting, rec)
}

/// The verdict on the host that an opener reads.
fn tried_by<P: Opener>(
    alloc: Global,
    opener: &mut P,
    setting: &Setting,
    rec: &Record,
) -> Result<Verdict, HostStop>
    requires opener { (P.seen opener.old).machine ≡ setting.now.machine }
    requires machine { rec.now.machine ≡ setting.now.machine }
    requires whole { IsWhole rec.now }
    ensures answer { IsTried setting.now (P.seen opener.old).told (P.seen opener.old).faults
        (P.seen opener.new).faults rec.now result }
    ensures grew { OnlyGrew (P.seen opener.old) (P.seen opener.new) }
{
    host_meets(alloc, rec, opener, setting.dirs.as_slice())
}
