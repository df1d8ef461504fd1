//! The bytes of one file, appended piece after piece. Definitions: `specs/Writing.antt`.

ghost use Rattle.std.specs.Prelude.{◌≡◌, ◌<◌, ◌≤◌, [], IfErr, IfOk, OnErr, OnOk, length, min, take};
ghost use Rattle.answers.specs.Told.{WhereTold};
ghost use Rattle.appdir_files.specs.Writing.{HasLength, IsBegun, IsBodyAdded, IsBodyProbed, IsCopyCause, IsFrontAdded};
ghost use Rattle.ports.specs.Folder.{Added, grown};
ghost use Rattle.ports.specs.View.{Became, Changed, HasCause, OnlyReads};

use crate::items::Body;
use crate::stops::CopyStop;
use path_text::Abs;
use ports::{Failed, OutDir, Tree};

/// Appends the bytes of a file to the open one, in pieces of at most the window's length.
pub fn append_body<T: Tree, O: OutDir>(
    tree: &mut T,
    out: &mut O,
    body: &Body,
    window: &mut [u8],
) -> Result<(), CopyStop>
    requires room { 0 < length window.old }
    requires begun { IsBegun (O.seen out.old) }
    requires probed { IsBodyProbed (T.seen tree.old).told body.now }
    ensures added { OnOk result
        (IsBodyAdded (T.seen tree.old).told body.now (O.seen out.old) (O.seen out.new)) }
    ensures begun { OnOk result (IsBegun (O.seen out.new)) }
    ensures cut { OnErr result (Changed (Added []) (O.seen out.old) (O.seen out.new)) }
    ensures cause { IfErr result (λ stop. IsCopyCause (T.seen tree.old) (T.seen tree.new)
        (O.seen out.old) (O.seen out.new) stop) }
    ensures only_reads { OnlyReads (T.seen tree.old) (T.seen tree.new) }
    ensures never_falls { (O.seen out.old).faults ≤ (O.seen out.new).faults }
{
    match body {
        Body::Bytes(text) => match append_bytes(out, text.as_bytes(), window.len()) {
            Ok(()) => Ok(()),
            Err(_) => Err(CopyStop::Write),
        },
        Body::Copy { from, len } => append_copy(tree, out, from, *len, window),
    }
}

/// Appends the first `len` bytes of the file at a path, as they are read.
fn append_copy<T: Tree, O: OutDir>(
    tree: &mut T,
    out: &mut O,
    from: &Abs,
    len: u64,
    window: &mut [u8],
) -> Result<(), CopyStop>
    requires room { 0 < length window.old }
    requires begun { IsBegun (O.seen out.old) }
    requires probed { WhereTold (T.seen tree.old).told (λ world. HasLength world from.now len) }
    ensures added { OnOk result
        (IsFrontAdded (T.seen tree.old).told from.now len (O.seen out.old) (O.seen out.new)) }
    ensures begun { OnOk result (IsBegun (O.seen out.new)) }
    ensures cut { OnErr result (Changed (Added []) (O.seen out.old) (O.seen out.new)) }
    ensures cause { IfErr result (λ stop. IsCopyCause (T.seen tree.old) (T.seen tree.new)
        (O.seen out.old) (O.seen out.new) stop) }
    ensures only_reads { OnlyReads (T.seen tree.old) (T.seen tree.new) }
    ensures never_falls { (O.seen out.old).faults ≤ (O.seen out.new).faults }
{
    let mut at = 0;
    'copy: while at < len {
        let Ok(count) = tree.read_at(from, at, window) else {
            return Err(CopyStop::Read);
        };
        match append_piece(out, &window[..count], (len - at) as usize) {
            Ok(added) => at += added as u64,
            Err(_) => return Err(CopyStop::Write),
        }
    }
    Ok(())
}

/// Appends these bytes, in pieces of at most so many.
fn append_bytes<O: OutDir>(out: &mut O, bytes: &[u8], most: usize) -> Result<(), Failed>
    requires most { 0 < most }
    requires begun { IsBegun (O.seen out.old) }
    ensures added { OnOk result (Became (grown bytes.now) (O.seen out.old) (O.seen out.new)) }
    ensures begun { OnOk result (IsBegun (O.seen out.new)) }
    ensures cut { OnErr result (Changed (Added []) (O.seen out.old) (O.seen out.new)) }
    ensures cause { HasCause (O.seen out.old) (O.seen out.new) result }
{
    let mut at = 0;
    'pieces: while at < bytes.len() {
        match append_piece(out, &bytes[at..], most) {
            Ok(added) => at += added,
            Err(failed) => return Err(failed),
        }
    }
    Ok(())
}

/// Appends the first of these bytes, at most so many, and gives their number. No piece is empty.
fn append_piece<O: OutDir>(out: &mut O, bytes: &[u8], most: usize) -> Result<usize, Failed>
    requires some { 0 < length bytes.now }
    requires most { 0 < most }
    requires begun { IsBegun (O.seen out.old) }
    ensures count { IfOk result (λ n. n ≡ min (length bytes.now) most) }
    ensures added { IfOk result
        (λ n. Became (grown (take n bytes.now)) (O.seen out.old) (O.seen out.new)) }
    ensures begun { OnOk result (IsBegun (O.seen out.new)) }
    ensures cut { OnErr result (Changed (Added []) (O.seen out.old) (O.seen out.new)) }
    ensures cause { HasCause (O.seen out.old) (O.seen out.new) result }
{
    let count = bytes.len().min(most);
    match out.append(&bytes[..count]) {
        Ok(()) => Ok(count),
        Err(failed) => Err(failed),
    }
}
