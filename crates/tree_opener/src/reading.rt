//! Reading files of the tree: whole ones, and objects as a loader sees them. Definitions:
//! `specs/Reading.antt`.

ghost use Rattle.std.specs.Prelude.{◌≡◌, ◌≤◌, ◌<◌, IfOk, IfErr, OnOk, length, take, vec_len};
ghost use Rattle.answers.specs.Told.{WhereTold};
ghost use Rattle.byte_view.specs.Checks.{flaw};
ghost use Rattle.load_model.specs.Faces.{face_or_flaw};
ghost use Rattle.load_model.specs.World.{is_for, is_other};
ghost use Rattle.ports.specs.Reading.{bytes_at};
ghost use Rattle.ports.specs.View.{OnlyReads};
ghost use Rattle.tree_opener.specs.Reading.{IsReadCause, IsSeenFor, seen_for, seen_in, seen_with};

use crate::faces::FaceWithTables;
use crate::stops::ReadStop;
use byte_view::constants::{
    E_MACHINE_AT, E_VERSION_AT, EI_CLASS, EI_DATA, ELFCLASS64, ELFDATA2LSB, ELFMAG, LONGEST_FILE,
};
use byte_view::flaws::TOO_BIG;
use byte_view::{Flaw, u16_at};
use elf_face::{FaceFault, read_loaded};
use path_text::Abs;
use ports::Tree;
use std::alloc::Global;

/// How many bytes are read at once.
pub const WINDOW: usize = 65_536;

/// How many bytes at the front of a file tell whether it is one for another machine.
const FRONT: u64 = E_VERSION_AT;

/// What a loader sees of a file: that it is for another machine, its face, or its first flaw.
#[derive(Drop)]
pub enum Seen {
    ForAnother,
    Faced(FaceWithTables),
    Flawed(Flaw),
}

/// A file of a tree: where it lies, and how long it is.
#[derive(Drop)]
pub struct FileAt<'a> {
    pub path: &'a Abs,
    pub len: u64,
}

/// Reads a file as a loader of this machine sees it, through a window. Each byte is read once, from
/// the first window on; of a file that is for another machine, or too long, the first window alone.
pub fn see<T: Tree>(
    alloc: Global,
    tree: &mut T,
    file: &FileAt<'_>,
    machine: u16,
    window: &mut [u8],
) -> Result<Seen, ReadStop>
    requires room { 0 < length window.old }
    requires len { WhereTold (T.seen tree.old).told
        (λ world. length (bytes_at world file.now.path.now) ≡ file.now.len) }
    ensures seen { IfOk result (λ seen. WhereTold (T.seen tree.old).told
        (λ world. seen ≡ seen_in machine (bytes_at world file.now.path.now))) }
    ensures known { IfOk result (λ seen. IsSeenFor machine seen) }
    ensures cause { IfErr result
        (λ stop. IsReadCause (T.seen tree.old).faults (T.seen tree.new).faults stop) }
    ensures only_reads { OnlyReads (T.seen tree.old) (T.seen tree.new) }
{
    let len = file.len;
    let mut bytes = Vec::with_capacity(alloc, len.min(LONGEST_FILE) as usize)?;
    read_to(tree, file, len.min(FRONT), &mut bytes, window)?;
    if is_for_another(machine, bytes.as_slice()) {
        return Ok(Seen::ForAnother);
    }
    if len > LONGEST_FILE {
        return Ok(Seen::Flawed(too_big(len)));
    }
    read_to(tree, file, len, &mut bytes, window)?;
    face_in(alloc, machine, bytes.as_slice())
}

/// Reads the whole file of this length at a path.
pub fn read_whole<T: Tree>(
    alloc: Global,
    tree: &mut T,
    path: &Abs,
    len: u64,
) -> Result<Vec<u8>, ReadStop>
    requires { WhereTold (T.seen tree.old).told (λ world. length (bytes_at world path.now) ≡ len) }
    ensures bytes { IfOk result (λ bytes. WhereTold (T.seen tree.old).told
        (λ world. bytes.items ≡ bytes_at world path.now)) }
    ensures cause { IfErr result
        (λ stop. IsReadCause (T.seen tree.old).faults (T.seen tree.new).faults stop) }
    ensures only_reads { OnlyReads (T.seen tree.old) (T.seen tree.new) }
{
    let mut window = vec![in alloc; 0; WINDOW]?;
    let mut bytes = Vec::with_capacity(alloc, len as usize)?;
    let file = FileAt { path, len };
    read_to(tree, &file, len, &mut bytes, window.as_mut_slice())?;
    Ok(bytes)
}

/// The flaw of a file that is too long to be read.
fn too_big(len: u64) -> Flaw
    ensures { result ≡ flaw TOO_BIG len 0 }
{
    Flaw {
        code: TOO_BIG,
        a: len,
        b: 0,
    }
}

/// What a loader of this machine sees in the bytes of a file that is not known to be for another.
#[tactic(auto, unfolding(load_model::specs::Faces::face_or_flaw))]
fn face_in(alloc: Global, machine: u16, bytes: &[u8]) -> Result<Seen, ReadStop>
    ensures seen { IfOk result (λ seen. seen ≡ seen_for machine (face_or_flaw bytes.now)) }
    ensures known { IfOk result (λ seen. IsSeenFor machine seen) }
    ensures memory { IfErr result (λ stop. stop ≡ ReadStop.NoMemory) }
{
    match read_loaded(alloc, bytes) {
        Ok(loaded) => Ok(seen_with(machine, FaceWithTables::of(loaded))),
        Err(FaceFault::Flawed(flaw)) => Ok(Seen::Flawed(flaw)),
        Err(FaceFault::NoMemory) => Err(ReadStop::NoMemory),
    }
}

/// A file with this face, which may be one for another machine.
fn seen_with(machine: u16, face: FaceWithTables) -> Seen
    ensures { result ≡ seen_with machine face }
{
    if face.machine() == machine {
        Seen::Faced(face)
    } else {
        Seen::ForAnother
    }
}

/// Reads on until at least so many bytes of a file are there.
fn read_to<T: Tree>(
    tree: &mut T,
    file: &FileAt<'_>,
    wanted: u64,
    bytes: &mut Vec<u8>,
    window: &mut [u8],
) -> Result<(), ReadStop>
    requires room { 0 < length window.old }
    requires wanted { wanted ≤ file.now.len }
    requires fits { vec_len bytes.old ≤ file.now.len }
    requires within { WhereTold (T.seen tree.old).told
        (λ world. file.now.len ≤ length (bytes_at world file.now.path.now)) }
    requires front { WhereTold (T.seen tree.old).told
        (λ world. bytes.old.items ≡ take (vec_len bytes.old) (bytes_at world file.now.path.now)) }
    ensures enough { OnOk result (wanted ≤ vec_len bytes.new) }
    ensures fits { OnOk result (vec_len bytes.new ≤ file.now.len) }
    ensures front { OnOk result (WhereTold (T.seen tree.old).told
        (λ world. bytes.new.items ≡ take (vec_len bytes.new) (bytes_at world file.now.path.now))) }
    ensures cause { IfErr result
        (λ stop. IsReadCause (T.seen tree.old).faults (T.seen tree.new).faults stop) }
    ensures only_reads { OnlyReads (T.seen tree.old) (T.seen tree.new) }
{
    'fill: while (bytes.len() as u64) < wanted {
        read_more(tree, file, bytes, window)?;
    }
    Ok(())
}

/// Reads at least one more byte of a file.
fn read_more<T: Tree>(
    tree: &mut T,
    file: &FileAt<'_>,
    bytes: &mut Vec<u8>,
    window: &mut [u8],
) -> Result<(), ReadStop>
    requires room { 0 < length window.old }
    requires more { vec_len bytes.old < file.now.len }
    requires within { WhereTold (T.seen tree.old).told
        (λ world. file.now.len ≤ length (bytes_at world file.now.path.now)) }
    requires front { WhereTold (T.seen tree.old).told
        (λ world. bytes.old.items ≡ take (vec_len bytes.old) (bytes_at world file.now.path.now)) }
    ensures grown { OnOk result (vec_len bytes.old < vec_len bytes.new) }
    ensures at_most { OnOk result (vec_len bytes.new ≤ file.now.len) }
    ensures front { OnOk result (WhereTold (T.seen tree.old).told
        (λ world. bytes.new.items ≡ take (vec_len bytes.new) (bytes_at world file.now.path.now))) }
    ensures cause { IfErr result
        (λ stop. IsReadCause (T.seen tree.old).faults (T.seen tree.new).faults stop) }
    ensures only_reads { OnlyReads (T.seen tree.old) (T.seen tree.new) }
{
    let at = bytes.len();
    let count = match tree.read_at(file.path, at as u64, window) {
        Ok(count) => count,
        Err(_) => return Err(ReadStop::Failed),
    };
    let wanted = count.min(file.len as usize - at);
    bytes.extend_from_slice(&window[..wanted])?;
    Ok(())
}

/// Whether the first bytes of a file are those of an object of another class, byte order or
/// machine.
fn is_for_another(machine: u16, front: &[u8]) -> bool
    ensures { result ≡ is_other machine front.now }
{
    front.len() as u64 >= E_VERSION_AT
        && front.starts_with(&ELFMAG)
        && !is_for_machine(machine, front)
}

fn is_for_machine(machine: u16, front: &[u8]) -> bool
    requires { E_VERSION_AT ≤ length front.now }
    ensures { result ≡ is_for machine front.now }
{
    front[EI_CLASS] == ELFCLASS64
        && front[EI_DATA] == ELFDATA2LSB
        && u16_at(front, E_MACHINE_AT) == Some(machine)
}
