//! Giving an answer: saying its text, or writing its files into a folder and saying the line.
//! Definitions: `specs/Delivery.antt`.

ghost use Rattle.std.specs.Prelude.{◌≡◌, ◌<◌, ◌≤◌, All, IfErr, IfOk, length};
ghost use Rattle.appdir_files.specs.Writing.{IsProbed};
ghost use Rattle.deliveries.specs.Delivery.{IsAnswerDelivered, IsAnswerProbed, IsDelivered, IsOpenedFor, IsStoppedBy};
ghost use Rattle.ports.specs.View.{OnlyReads};

use crate::answer::{Answer, Whole};
use crate::saying::say;
use crate::status::Status;
use appdir_files::{CopyStop, write_all};
use path_text::NoMemory;
use ports::{OutDir, RootState, Sink, Tree};
use refusals::not_empty_text;
use std::alloc::Global;

/// How many bytes are copied at once.
const WINDOW: usize = 65_536;

/// Says the text of an answer, or delivers its files. A probe told the length of each file that is
/// copied.
pub fn give<T: Tree, O: OutDir, S: Sink>(
    alloc: Global,
    answer: &Answer,
    tree: &mut T,
    out: &mut O,
    sink: &mut S,
) -> Status
    requires { IsAnswerProbed (T.seen tree.old).told answer.now }
    ensures given { IsAnswerDelivered answer.now (T.seen tree.old) (T.seen tree.new)
        (O.seen out.old) (O.seen out.new) (S.seen sink.old) (S.seen sink.new) result }
    ensures only_reads { OnlyReads (T.seen tree.old) (T.seen tree.new) }
    ensures folder_faults { (O.seen out.old).faults ≤ (O.seen out.new).faults }
    ensures sink_faults { (S.seen sink.old).faults ≤ (S.seen sink.new).faults }
{
    match answer {
        Answer::Says(text) => say(sink, text.as_bytes(), Status::Done),
        Answer::Packs(whole) => deliver(alloc, whole, tree, out, sink),
    }
}

/// Writes the files into an empty folder, and says the line. What needs memory comes before the
/// folder is opened.
fn deliver<T: Tree, O: OutDir, S: Sink>(
    alloc: Global,
    whole: &Whole,
    tree: &mut T,
    out: &mut O,
    sink: &mut S,
) -> Status
    requires { All (IsProbed (T.seen tree.old).told) whole.now.items }
    ensures delivered { IsDelivered whole.now (T.seen tree.old) (T.seen tree.new)
        (O.seen out.old) (O.seen out.new) (S.seen sink.old) (S.seen sink.new) result }
    ensures only_reads { OnlyReads (T.seen tree.old) (T.seen tree.new) }
    ensures folder_faults { (O.seen out.old).faults ≤ (O.seen out.new).faults }
    ensures sink_faults { (S.seen sink.old).faults ≤ (S.seen sink.new).faults }
{
    let Ok(not_empty) = not_empty_text(alloc, &whole.place) else {
        return Status::NoMemory;
    };
    let Ok(mut window) = new_window(alloc) else {
        return Status::NoMemory;
    };
    match write_whole(tree, out, whole, window.as_mut_slice()) {
        Ok(RootState::Empty) => say(sink, whole.line.as_bytes(), Status::Done),
        Ok(RootState::NotEmpty) => say(sink, not_empty.as_bytes(), Status::Refused),
        Err(CopyStop::Read) => Status::ReadFailed,
        Err(CopyStop::Write) => Status::WriteFailed,
    }
}

/// Memory through which files are copied.
fn new_window(alloc: Global) -> Result<Vec<u8>, NoMemory>
    ensures { IfOk result (λ window. length window.items ≡ WINDOW) }
{
    match vec![in alloc; 0; WINDOW] {
        Ok(window) => Ok(window),
        Err(_) => Err(NoMemory),
    }
}

/// Opens the folder, and writes the files where it is empty.
fn write_whole<T: Tree, O: OutDir>(
    tree: &mut T,
    out: &mut O,
    whole: &Whole,
    window: &mut [u8],
) -> Result<RootState, CopyStop>
    requires room { 0 < length window.old }
    requires probed { All (IsProbed (T.seen tree.old).told) whole.now.items }
    ensures written { IfOk result
        (IsOpenedFor (T.seen tree.old).told whole.now (O.seen out.old) (O.seen out.new)) }
    ensures stopped { IfErr result (IsStoppedBy whole.now (T.seen tree.old) (T.seen tree.new)
        (O.seen out.old) (O.seen out.new)) }
    ensures only_reads { OnlyReads (T.seen tree.old) (T.seen tree.new) }
    ensures folder_faults { (O.seen out.old).faults ≤ (O.seen out.new).faults }
{
    match out.root(&whole.place) {
        Ok(RootState::Empty) => {}
        Ok(RootState::NotEmpty) => return Ok(RootState::NotEmpty),
        Err(_) => return Err(CopyStop::Write),
    }
    match write_all(tree, out, whole.items.as_slice(), window) {
        Ok(()) => Ok(RootState::Empty),
        Err(stop) => Err(stop),
    }
}
