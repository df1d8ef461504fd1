//! Writing files into an opened folder, in order. Definitions: `specs/Writing.antt`.

ghost use Rattle.std.specs.Prelude.{◌<◌, ◌≤◌, ◌∷◌, [], All, IfErr, OnErr, OnOk, length};
ghost use Rattle.appdir_files.specs.Writing.{HasRoot, IsCopyCause, IsPartWritten, IsProbed, IsWritten};
ghost use Rattle.ports.specs.Folder.{Added, IsClosed};
ghost use Rattle.ports.specs.View.{Changed, OnlyReads};

use crate::copying::append_body;
use crate::items::Item;
use crate::stops::CopyStop;
use ports::{OutDir, Tree};

/// Writes the items in order. No piece that is appended is empty, or longer than the window; no
/// memory is taken. After a failure a front part of the items is finished that is not all.
pub fn write_all<T: Tree, O: OutDir>(
    tree: &mut T,
    out: &mut O,
    items: &[Item],
    window: &mut [u8],
) -> Result<(), CopyStop>
    requires room { 0 < length window.old }
    requires rooted { HasRoot (O.seen out.old) }
    requires closed { IsClosed (O.seen out.old) }
    requires probed { All (IsProbed (T.seen tree.old).told) items.now }
    ensures all { OnOk result
        (IsWritten (T.seen tree.old).told items.now (O.seen out.old) (O.seen out.new)) }
    ensures closed { OnOk result (IsClosed (O.seen out.new)) }
    ensures part { OnErr result
        (IsPartWritten (T.seen tree.old).told items.now (O.seen out.old) (O.seen out.new)) }
    ensures cause { IfErr result (λ stop. IsCopyCause (T.seen tree.old) (T.seen tree.new)
        (O.seen out.old) (O.seen out.new) stop) }
    ensures only_reads { OnlyReads (T.seen tree.old) (T.seen tree.new) }
    ensures never_falls { (O.seen out.old).faults ≤ (O.seen out.new).faults }
{
    for item in items {
        if let Err(stop) = write_item(tree, out, item, window) {
            return Err(stop);
        }
    }
    Ok(())
}

/// Writes one item: begins its file, appends its bytes and finishes it.
fn write_item<T: Tree, O: OutDir>(
    tree: &mut T,
    out: &mut O,
    item: &Item,
    window: &mut [u8],
) -> Result<(), CopyStop>
    requires room { 0 < length window.old }
    requires closed { IsClosed (O.seen out.old) }
    requires probed { IsProbed (T.seen tree.old).told item.now }
    ensures written { OnOk result
        (IsWritten (T.seen tree.old).told (item.now ∷ []) (O.seen out.old) (O.seen out.new)) }
    ensures closed { OnOk result (IsClosed (O.seen out.new)) }
    ensures cut { OnErr result (Changed (Added []) (O.seen out.old) (O.seen out.new)) }
    ensures cause { IfErr result (λ stop. IsCopyCause (T.seen tree.old) (T.seen tree.new)
        (O.seen out.old) (O.seen out.new) stop) }
    ensures only_reads { OnlyReads (T.seen tree.old) (T.seen tree.new) }
    ensures never_falls { (O.seen out.old).faults ≤ (O.seen out.new).faults }
{
    if out.begin(&item.path, item.executable).is_err() {
        return Err(CopyStop::Write);
    }
    if let Err(stop) = append_body(tree, out, &item.body, window) {
        return Err(stop);
    }
    match out.finish() {
        Ok(()) => Ok(()),
        Err(_) => Err(CopyStop::Write),
    }
}
