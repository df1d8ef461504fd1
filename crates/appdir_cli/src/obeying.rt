//! Doing what a command asks for: what it comes to, and then its text or its files. Definitions:
//! `specs/ComesTo.antt` and `specs/Endings.antt`.

ghost use Rattle.std.specs.Prelude.{◌≤◌, IfOk};
ghost use Rattle.appdir_cli.specs.Answering.{IsAnswerTo};
ghost use Rattle.appdir_cli.specs.Endings.{EndsFor, outside};
ghost use Rattle.command_words.specs.Words.{IsSized};
ghost use Rattle.deliveries.specs.Delivery.{IsAnswerProbed};
ghost use Rattle.ports.specs.View.{OnlyReads};

use crate::generating::generate;
use crate::hosting::host;
use crate::packing::{build_by, quick};
use crate::showing::show;
use appdir_build::BuildStop;
use command_words::Command;
use deliveries::{Answer, Status, give, refuse};
use ports::{OutDir, Sink, Tree};
use std::alloc::Global;

/// What the command comes to.
#[tactic(auto, using(crate::proofs::AnsweringLemmas::quick_answers, crate::proofs::AnsweringLemmas::build_answers, crate::proofs::AnsweringLemmas::show_answers, crate::proofs::AnsweringLemmas::host_answers, crate::proofs::AnsweringLemmas::gen_answers))]
fn answer<T: Tree>(alloc: Global, tree: &mut T, command: &Command) -> Result<Answer, BuildStop>
    requires { IsSized command.now }
    ensures answer { IsAnswerTo command.now (T.seen tree.old) (T.seen tree.new) result }
    ensures probed { IfOk result (IsAnswerProbed (T.seen tree.old).told) }
    ensures only_reads { OnlyReads (T.seen tree.old) (T.seen tree.new) }
{
    match command {
        Command::Quick(command) => quick(alloc, tree, command),
        Command::Build(command) => build_by(alloc, tree, command),
        Command::Show(command) => show(alloc, tree, command),
        Command::Host(command) => host(alloc, tree, command),
        Command::Gen(command) => generate(alloc, command),
    }
}

/// Does what the command asks for.
pub fn obey<T: Tree, O: OutDir, S: Sink>(
    alloc: Global,
    command: &Command,
    tree: &mut T,
    out: &mut O,
    sink: &mut S,
) -> Status
    requires { IsSized command.now }
    ensures ending { EndsFor command.now
        (outside (T.seen tree.old) (O.seen out.old) (S.seen sink.old))
        (outside (T.seen tree.new) (O.seen out.new) (S.seen sink.new)) result }
    ensures only_reads { OnlyReads (T.seen tree.old) (T.seen tree.new) }
    ensures folder_faults { (O.seen out.old).faults ≤ (O.seen out.new).faults }
    ensures sink_faults { (S.seen sink.old).faults ≤ (S.seen sink.new).faults }
{
    match answer(alloc, tree, command) {
        Ok(given) => give(alloc, &given, tree, out, sink),
        Err(BuildStop::Refused(refusal)) => refuse(alloc, &refusal, sink),
        Err(BuildStop::Read) => Status::ReadFailed,
        Err(BuildStop::NoMemory) => Status::NoMemory,
    }
}
