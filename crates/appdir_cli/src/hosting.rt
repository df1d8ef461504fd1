//! `host`: says whether the tree meets the record of a directory. Definition: `specs/Hosting.antt`.

ghost use Rattle.std.specs.Prelude.{IfOk};
ghost use Rattle.build_plan.specs.Steps.{IsStepAnswer};
ghost use Rattle.deliveries.specs.Delivery.{IsAnswerProbed};
ghost use Rattle.ports.specs.View.{OnlyReads};
ghost use Rattle.appdir_cli.specs.Hosting.{Checks};

use appdir_build::BuildStop;
use command_words::Host;
use deliveries::Answer;
use host_checks::check_host;
use ports::Tree;
use std::alloc::Global;

/// `host OUT [DIR ..]`: says whether the tree meets the record of a directory.
pub fn host<T: Tree>(alloc: Global, tree: &mut T, command: &Host) -> Result<Answer, BuildStop>
    ensures answer { IsStepAnswer (T.seen tree.old) (T.seen tree.new)
        (λ world outcome. Checks world command.now outcome) result }
    ensures probed { IfOk result (IsAnswerProbed (T.seen tree.old).told) }
    ensures only_reads { OnlyReads (T.seen tree.old) (T.seen tree.new) }
{
    match check_host(alloc, tree, &command.place, command.dirs.as_slice()) {
        Ok(line) => Ok(Answer::Says(line)),
        Err(stop) => Err(stop),
    }
}
