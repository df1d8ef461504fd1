ghost use Rattle.std.specs.Prelude.{◌≡◌, ◌<◌, ◌≤◌, ◌-◌, ◌↔◌, ◌++◌, [], length, min, take, drop};
ghost use Rattle.std.specs.Prelude.{OnOk, OnErr, IfOk, IsErr, IsTrue, option_map};
ghost use Rattle.std.specs.Str.{bytes_eq};
ghost use Rattle.std.proofs.Props.{props};
ghost use Rattle.load_model.specs.World.{file_at};
ghost use Rattle.ports.specs.Calls.{after_call, is_to_fail, no_calls, with_failing};
ghost use Rattle.ports.specs.MemTree.{IsStored, clashes, is_taken, with_last, world_file, world_of};
ghost use Rattle.ports.specs.Reading.{bytes_at, found_at};

use crate::calls::Calls;
use crate::{Failed, Found, ProbeStop, Tree};
use load_model::{List, Name, NoMemory, Text};
use path_text::Abs;
use std::alloc::Global;

// the numbers of the methods
const PROBE: u8 = 0;

const READ_AT: u8 = 1;

/// Why a tree did not take a file.
#[derive(Clone, Copy, PartialEq, Eq, Debug)]
pub enum AddFault {
    Taken,
    NoMemory,
}

/// A file of the tree; the path is in normal form.
#[derive(Drop)]
pub struct StoredFile {
    path: Name,
    id: Name,
    bytes: Text,
}

/// A tree in memory, which tells its world. Of its calls those fail that are to.
#[derive(Drop)]
pub struct MemTree {
    alloc: Global,
    files: List<StoredFile>,
    calls: Calls,
    pub ghost stored: { IsStored (world_of files) } by { Prim.hlevel props },
}

impl MemTree {
    /// A tree without files, of which no call is to fail.
    pub fn new(alloc: Global) -> Result<MemTree, NoMemory>
        ensures files { IfOk result (λ tree. tree.files ≡ []) }
        ensures calls { IfOk result (λ tree. tree.calls ≡ no_calls) }
    {
        Ok(MemTree {
            alloc,
            files: List::new(alloc),
            calls: Calls::new(alloc),
        })
    }

    /// Adds a file. It is Taken exactly where the path is there, or the identity is there with
    /// other bytes.
    pub fn add(&mut self, path: &Abs, id: &Name, bytes: &[u8]) -> Result<(), AddFault>
        ensures taken { (result ≡ Err AddFault.Taken)
            ↔ IsTrue (is_taken (world_of self.old.files) path.now id.now bytes.now) }
        ensures ok { OnOk result (world_of self.new.files
            ≡ with_last (world_of self.old.files) path.now id.now bytes.now) }
        ensures err { OnErr result (self.new.files ≡ self.old.files) }
        ensures calls { self.new.calls ≡ self.old.calls }
    {
        let path = path.as_str().as_bytes();
        if is_taken(self.files.as_slice(), path, id.as_bytes(), bytes) {
            return Err(AddFault::Taken);
        }
        match store(self.alloc, &mut self.files, path, id.as_bytes(), bytes) {
            Ok(()) => Ok(()),
            Err(NoMemory) => Err(AddFault::NoMemory),
        }
    }

    /// Puts the number of a call, from 1, on the list of those that are to fail. `probe` is method
    /// 0, `read_at` 1.
    pub fn fail_at(&mut self, method: u8, call: u64) -> Result<(), NoMemory>
        ensures ok { OnOk result (self.new.calls ≡ with_failing self.old.calls method call) }
        ensures err { OnErr result (self.new.calls ≡ self.old.calls) }
        ensures stays { self.new.files ≡ self.old.files }
    {
        self.calls.fail_at(method, call)
    }
}

impl Tree for MemTree {
    ghost use Rattle.std.specs.Prelude.{IfSome, Some};
    ghost use Rattle.std.proofs.Common.{subst};
    ghost use Rattle.path_text.proofs.PathLemmas.{IsNormalPath-path_of};
    ghost use Rattle.load_model.specs.World.{IsWorld};

    ghost seen = { λ tree. record {
      told = Some (world_of tree.files);
      faults = tree.calls.faults;
    } };

    ghost tells_world = { λ tree world told. subst (λ some. IfSome some IsWorld) told (record {
      paths = λ at none below. IsNormalPath-path_of _ _ (tree.stored.paths at none below);
      distinct = tree.stored.distinct;
      same_bytes = tree.stored.same_bytes;
    }) };

    fn probe(&mut self, alloc: Global, path: &Abs) -> Result<Found, ProbeStop>
        ensures failed { (result ≡ Err ProbeStop.Failed)
            ↔ IsTrue (is_to_fail self.old.calls PROBE) }
        ensures found { IfOk result (λ found. found ≡ found_at (world_of self.old.files) path.now) }
        ensures files_stay { self.new.files ≡ self.old.files }
        ensures counted { self.new.calls ≡ after_call self.old.calls PROBE }
        ensures never_falls { self.old.calls.faults ≤ self.new.calls.faults }
    {
        if self.calls.strikes(PROBE) {
            return Err(ProbeStop::Failed);
        }
        let Some(file) = file_at(self.files.as_slice(), path.as_str().as_bytes()) else {
            return Ok(Found::Absent);
        };
        let Ok(id) = Name::from_bytes(alloc, file.id.as_bytes()) else {
            return Err(ProbeStop::NoMemory);
        };
        Ok(Found::File {
            id,
            len: file.bytes.as_bytes().len() as u64,
        })
    }

    fn read_at(&mut self, path: &Abs, at: u64, buf: &mut [u8]) -> Result<usize, Failed>
        requires room { 0 < length buf.old }
        requires within { at < length (bytes_at (world_of self.old.files) path.now) }
        ensures failed { IsErr result ↔ IsTrue (is_to_fail self.old.calls READ_AT) }
        ensures count { IfOk result (λ n. n ≡ min (length buf.old)
            (length (bytes_at (world_of self.old.files) path.now) - at)) }
        ensures read { IfOk result (λ n. buf.new
            ≡ take n (drop at (bytes_at (world_of self.old.files) path.now)) ++ drop n buf.old) }
        ensures unread { OnErr result (buf.new ≡ buf.old) }
        ensures files_stay { self.new.files ≡ self.old.files }
        ensures counted { self.new.calls ≡ after_call self.old.calls READ_AT }
        ensures never_falls { self.old.calls.faults ≤ self.new.calls.faults }
    {
        if self.calls.strikes(READ_AT) {
            return Err(Failed);
        }
        let bytes = bytes_at(self.files.as_slice(), path.as_str().as_bytes());
        Ok(copy_front(&bytes[at as usize..], buf))
    }
}

impl StoredFile {
    fn is_at(&self, path: &[u8]) -> bool
        ensures { result ≡ bytes_eq self.now.path path.now }
    {
        self.path.as_bytes() == path
    }

    fn clashes(&self, path: &[u8], id: &[u8], bytes: &[u8]) -> bool
        ensures { result ≡ clashes path.now id.now bytes.now (world_file self.now) }
    {
        self.is_at(path) || (self.id.as_bytes() == id && self.bytes.as_bytes() != bytes)
    }
}

// Whether a file has the path, or the identity with other bytes.
fn is_taken(files: &[StoredFile], path: &[u8], id: &[u8], bytes: &[u8]) -> bool
    ensures { result ≡ is_taken (world_of files.now) path.now id.now bytes.now }
{
    for file in files {
        if file.clashes(path, id, bytes) {
            return true;
        }
    }
    false
}

// Adds a file at the end. Where memory is refused the list stays as it was.
fn store(
    alloc: Global,
    files: &mut List<StoredFile>,
    path: &[u8],
    id: &[u8],
    bytes: &[u8],
) -> Result<(), NoMemory>
    ensures ok { OnOk result
        (world_of files.new ≡ with_last (world_of files.old) path.now id.now bytes.now) }
    ensures err { OnErr result (files.new ≡ files.old) }
{
    let file = StoredFile {
        path: Name::from_bytes(alloc, path)?,
        id: Name::from_bytes(alloc, id)?,
        bytes: Text::from_bytes(alloc, bytes)?,
    };
    files.push(file)
}

fn file_at<'a>(files: &'a [StoredFile], path: &[u8]) -> Option<&'a StoredFile>
    ensures { option_map (λ file. world_file file.now) result
        ≡ file_at (world_of files.now) path.now }
{
    for file in files {
        if file.is_at(path) {
            return Some(file);
        }
    }
    None
}

// The bytes of the file at the path, and none where there is no file.
fn bytes_at<'a>(files: &'a [StoredFile], path: &[u8]) -> &'a [u8]
    ensures { result.now ≡ bytes_at (world_of files.now) path.now }
{
    match file_at(files, path) {
        Some(file) => file.bytes.as_bytes(),
        None => &[],
    }
}

// Copies as many bytes as there are and as the buffer has room for.
fn copy_front(bytes: &[u8], buf: &mut [u8]) -> usize
    ensures count { result ≡ min (length buf.old) (length bytes.now) }
    ensures copied { buf.new ≡ take result bytes.now ++ drop result buf.old }
{
    let count = buf.len().min(bytes.len());
    buf[..count].copy_from_slice(&bytes[..count]);
    count
}
