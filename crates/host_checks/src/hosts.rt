//! Whether a tree, as a host, meets a record. Definitions: `specs/Verdicts.antt`.

ghost use Rattle.std.specs.Prelude.{◌≡◌};
ghost use Rattle.host_meeting.specs.Verdicts.{IsWhole};
ghost use Rattle.ports.specs.View.{OnlyReads};
ghost use Rattle.host_checks.specs.Verdicts.{IsTreeVerdict};

use host_meeting::{HostStop, Verdict, host_meets};
use host_record::Record;
use path_text::Abs;
use ports::Tree;
use std::alloc::Global;
use tree_opener::{TreeOpener, TreeView};

/// Whether a tree, whose libraries are looked for in these directories, meets a record; else the
/// first demand that it does not meet.
pub fn tree_meets<T: Tree>(
    alloc: Global,
    tree: &mut T,
    rec: &Record,
    dirs: &[Abs],
) -> Result<Verdict, HostStop>
    requires { IsWhole rec.now }
    ensures answer { IsTreeVerdict (T.seen tree.old) (T.seen tree.new) dirs.now rec.now result }
    ensures only_reads { OnlyReads (T.seen tree.old) (T.seen tree.new) }
{
    let Ok(mut opener) = TreeOpener::new(alloc, rec.machine) else {
        return Err(HostStop::NoMemory);
    };
    meets_over(alloc, &mut opener, tree, rec, dirs)
}

/// The same with an opener for the record's machine, which keeps the faces.
fn meets_over<T: Tree>(
    alloc: Global,
    opener: &mut TreeOpener,
    tree: &mut T,
    rec: &Record,
    dirs: &[Abs],
) -> Result<Verdict, HostStop>
    requires machine { opener.old.machine ≡ rec.now.machine }
    requires whole { IsWhole rec.now }
    ensures answer { IsTreeVerdict (T.seen tree.old) (T.seen tree.new) dirs.now rec.now result }
    ensures only_reads { OnlyReads (T.seen tree.old) (T.seen tree.new) }
{
    let mut view = TreeView { opener, tree };
    let verdict = meets_in_view(alloc, &mut view, rec, dirs);
    let TreeView { opener, tree } = view;
    let _ = opener;
    let _ = tree;
    verdict
}

/// The same through a view, which still borrows the same opener and tree afterwards.
fn meets_in_view<T: Tree>(
    alloc: Global,
    view: &mut TreeView<'_, '_, T>,
    rec: &Record,
    dirs: &[Abs],
) -> Result<Verdict, HostStop>
    requires machine { view.old.opener.now.machine ≡ rec.now.machine }
    requires whole { IsWhole rec.now }
    ensures same_opener { view.new.opener.ghost_name ≡ view.old.opener.ghost_name }
    ensures same_tree { view.new.tree.ghost_name ≡ view.old.tree.ghost_name }
    ensures answer { IsTreeVerdict (T.seen view.old.tree.now) (T.seen view.new.tree.now) dirs.now
        rec.now result }
    ensures only_reads { OnlyReads (T.seen view.old.tree.now) (T.seen view.new.tree.now) }
{
    host_meets(alloc, rec, view, dirs)
}
