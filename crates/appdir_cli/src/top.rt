//! The top call. Definitions: `specs/Endings.antt`, `specs/ComesTo.antt`, `specs/AppRun.antt`,
//! `specs/SameEverywhere.antt`, `specs/CheckedHosts.antt` and `specs/TwoWorlds.antt`.

ghost use Rattle.std.specs.Prelude.{◌≡◌, ◌≤◌};
ghost use Rattle.answers.specs.Told.{WhereTold};
ghost use Rattle.ports.specs.View.{OnlyReads};
ghost use Rattle.appdir_cli.specs.AppRun.{IsAppRunLast};
ghost use Rattle.appdir_cli.specs.CheckedHosts.{CheckedHostsRun};
ghost use Rattle.appdir_cli.specs.Endings.{Ends, IsComplete, outside};
ghost use Rattle.appdir_cli.specs.SameEverywhere.{RunsSameEverywhere};
ghost use Rattle.appdir_cli.specs.TwoWorlds.{RunsAlike};
ghost use Rattle.command_words.specs.Words.{command_of, texts};

use crate::obeying::obey;
use command_words::read_words;
use deliveries::{Status, say};
use host_checks::one_host_check;
use packed_programs::{checked_hosts_run_packed_programs, packed_programs_run_same};
use ports::{OutDir, Sink, Tree};
use refusals::usage_line;
use std::alloc::Global;

/// Does what the words ask for: reads files from the tree, writes an AppDir into the folder, and
/// prints to the sink.
pub fn appdir_main<T: Tree, O: OutDir, S: Sink>(
    alloc: Global,
    words: &[String],
    tree: &mut T,
    out: &mut O,
    sink: &mut S,
) -> Status
    ensures ending { Ends (command_of (texts words.now))
        (outside (T.seen tree.old) (O.seen out.old) (S.seen sink.old))
        (outside (T.seen tree.new) (O.seen out.new) (S.seen sink.new)) result }
    ensures complete { IsComplete (command_of (texts words.now))
        (outside (T.seen tree.old) (O.seen out.old) (S.seen sink.old))
        (outside (T.seen tree.new) (O.seen out.new) (S.seen sink.new)) result }
    ensures app_run_last { IsAppRunLast (command_of (texts words.now))
        (outside (T.seen tree.old) (O.seen out.old) (S.seen sink.old))
        (outside (T.seen tree.new) (O.seen out.new) (S.seen sink.new)) result }
    ensures same_everywhere { RunsSameEverywhere (command_of (texts words.now))
        (outside (T.seen tree.old) (O.seen out.old) (S.seen sink.old))
        (outside (T.seen tree.new) (O.seen out.new) (S.seen sink.new)) result }
    ensures checked_hosts { CheckedHostsRun (command_of (texts words.now))
        (outside (T.seen tree.old) (O.seen out.old) (S.seen sink.old)) result }
    ensures two_worlds { WhereTold (T.seen tree.old).told
        (λ world. RunsAlike (command_of (texts words.now)) world) }
    ensures only_reads { OnlyReads (T.seen tree.old) (T.seen tree.new) }
    ensures folder_faults { (O.seen out.old).faults ≤ (O.seen out.new).faults }
    ensures sink_faults { (S.seen sink.old).faults ≤ (S.seen sink.new).faults }
{
    // laws on which clauses rest; they do nothing
    one_host_check();
    packed_programs_run_same();
    checked_hosts_run_packed_programs();
    attend(alloc, words, tree, out, sink)
}

/// Does what the words ask for, if they ask for anything.
fn attend<T: Tree, O: OutDir, S: Sink>(
    alloc: Global,
    words: &[String],
    tree: &mut T,
    out: &mut O,
    sink: &mut S,
) -> Status
    ensures ending { Ends (command_of (texts words.now))
        (outside (T.seen tree.old) (O.seen out.old) (S.seen sink.old))
        (outside (T.seen tree.new) (O.seen out.new) (S.seen sink.new)) result }
    ensures only_reads { OnlyReads (T.seen tree.old) (T.seen tree.new) }
    ensures folder_faults { (O.seen out.old).faults ≤ (O.seen out.new).faults }
    ensures sink_faults { (S.seen sink.old).faults ≤ (S.seen sink.new).faults }
{
    match read_words(alloc, words) {
        Ok(Some(command)) => obey(alloc, &command, tree, out, sink),
        Ok(None) => say(sink, usage_line(), Status::Usage),
        Err(_) => Status::NoMemory,
    }
}
