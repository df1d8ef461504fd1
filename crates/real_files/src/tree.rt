//! The files of this machine that are read.

ghost use Rattle.std.specs.Prelude.{◌≡◌, ◌<◌, ◌≤◌, ◌↔◌, ◌⊎◌, length, IsTrue, IfOk};

use crate::counting::counted;
use load_model::Name;
use path_text::Abs;
use ports::{Failed, Found, ProbeStop, Tree};
use std::alloc::Global;
use std::fs::OpenFile;
use std::io::{ErrorKind, Read, Seek, SeekFrom};
use std::rt::Files;
use std::{fs, io};

// how often a read is tried that signals interrupt
const TRIES: u32 = 1000;

/// The files of this machine.
///
/// Links are followed. Only a regular file is a file: a folder, a device, a pipe and a socket are
/// absent, since a loader maps none of them, and a read of a pipe may wait for ever. The identity
/// of a file is the text of its path without links; a path that is not UTF-8 there is a fault.
///
/// The length is that of the file that was opened. Where it has another one later, a read is a
/// fault.
///
/// It tells nothing but its count of faults, to which each error adds one.
#[derive(Drop)]
pub struct RealTree<R: Files + AllocGlobal + Drop> {
    rt: R,
    reading: Option<Reading<R::File>>,
    faults: u64,
}

impl<R: Files + AllocGlobal + Drop> RealTree<R> {
    pub fn new(rt: R) -> RealTree<R>
        ensures { result.faults ≡ 0 }
    {
        RealTree {
            rt,
            reading: None,
            faults: 0,
        }
    }

    /// How many errors there were. The count stands still at its last value.
    pub fn faults(&self) -> u64
        ensures { result ≡ self.now.faults }
    {
        self.faults
    }

    /// What is at the path, where the system has an answer. A file is kept open for the reads.
    fn look(&mut self, alloc: Global, path: &str) -> io::Result<Found>
        ensures faults { self.new.faults ≡ self.old.faults }
    {
        self.reading = None;
        if !is_file(&self.rt, path)? {
            return Ok(Found::Absent);
        }
        let reading = Reading::open(&self.rt, path)?;
        let len = reading.len;
        let real = self.rt.canonicalize(alloc, path)?;
        match Name::from_bytes(alloc, real.as_str().as_bytes()) {
            Ok(id) => {
                self.reading = Some(reading);
                Ok(Found::File { id, len })
            }
            Err(_) => Err(io::Error::from(ErrorKind::OutOfMemory)),
        }
    }

    /// Reads a piece of the file at the path, and keeps the file open for the next one.
    fn read_piece(&mut self, path: &str, at: u64, buf: &mut [u8]) -> io::Result<usize>
        ensures some { IfOk result (λ n. 0 < n) }
        ensures fits { IfOk result (λ n. n ≤ length buf.old) }
        ensures faults { self.new.faults ≡ self.old.faults }
    {
        let last = self.reading.take();
        let mut reading = match last.filter(|reading| reading.path.as_str() == path) {
            Some(reading) => reading,
            None => Reading::open(&self.rt, path)?,
        };
        let n = reading.read_at(at, buf)?;
        self.reading = Some(reading);
        Ok(n)
    }
}

impl<R: Files + AllocGlobal + Drop> Tree for RealTree<R> {
    ghost use Rattle.std.proofs.Common.{rules};
    ghost use Rattle.answers.specs.Faults.{Rose};
    ghost use Rattle.real_files.specs.Counting.{CountsErrors, counts};

    ghost seen = { λ tree. counts tree.faults };

    ghost tells_world = { Prim.search rules };

    fn probe(&mut self, alloc: Global, path: &Abs) -> Result<Found, ProbeStop>
        ensures count { CountsErrors self.old.faults self.new.faults result }
        ensures failed { result ≡ Err ProbeStop.Failed → Rose self.old.faults self.new.faults }
        ensures never_falls { self.old.faults ≤ self.new.faults }
    {
        match self.look(alloc, path.as_str()) {
            Ok(found) => Ok(found),
            Err(error) => {
                self.faults = self.faults.saturating_add(1);
                Err(stop_of(error.kind()))
            }
        }
    }

    fn read_at(&mut self, path: &Abs, at: u64, buf: &mut [u8]) -> Result<usize, Failed>
        ensures some { IfOk result (λ n. 0 < n) }
        ensures fits { IfOk result (λ n. n ≤ length buf.old) }
        ensures count { CountsErrors self.old.faults self.new.faults result }
        ensures never_falls { self.old.faults ≤ self.new.faults }
    {
        let outcome = self.read_piece(path.as_str(), at, buf);
        counted(outcome, &mut self.faults)
    }
}

/// Whether a regular file is at the path, links followed.
fn is_file(files: &impl Files, path: &str) -> io::Result<bool> {
    match fs::metadata(files, path) {
        Ok(metadata) => Ok(metadata.is_file()),
        Err(error) if is_absence(error.kind()) => Ok(false),
        Err(error) => Err(error),
    }
}

/// Whether nothing is at a path for which the system answers so: its last part or a folder on the
/// way is missing, a file stands in the place of such a folder, or the path or a part of it is
/// longer than the system allows.
fn is_absence(kind: ErrorKind) -> bool
    ensures { IsTrue result ↔ ((kind ≡ ErrorKind.NotFound)
        ⊎ ((kind ≡ ErrorKind.NotADirectory) ⊎ (kind ≡ ErrorKind.InvalidFilename))) }
{
    kind == ErrorKind::NotFound
        || kind == ErrorKind::NotADirectory
        || kind == ErrorKind::InvalidFilename
}

fn stop_of(kind: ErrorKind) -> ProbeStop
    ensures { (result ≡ ProbeStop.NoMemory) ↔ (kind ≡ ErrorKind.OutOfMemory) }
{
    if kind == ErrorKind::OutOfMemory {
        ProbeStop::NoMemory
    } else {
        ProbeStop::Failed
    }
}

/// The file that was opened last.
#[derive(Drop)]
struct Reading<F> {
    path: String,
    file: F,
    len: u64,
    // where the next read begins
    place: u64,
}

impl<F: Read + Seek + OpenFile> Reading<F> {
    fn open<R: Files<File = F> + AllocGlobal>(rt: &R, path: &str) -> io::Result<Reading<F>>
    where
        F: Drop,
    {
        let path_text = String::from_str(rt.alloc(), path)?;
        let file = fs::open(rt, path)?;
        let len = file.metadata()?.len();
        Ok(Reading {
            path: path_text,
            file,
            len,
            place: 0,
        })
    }

    /// Reads bytes from `at` on. A read that gives nothing is an error, and so is another length
    /// than the file had when it was opened.
    fn read_at(&mut self, at: u64, buf: &mut [u8]) -> io::Result<usize>
        ensures some { IfOk result (λ n. 0 < n) }
        ensures fits { IfOk result (λ n. n ≤ length buf.old) }
    {
        if self.file.metadata()?.len() != self.len {
            return Err(io::Error::from(ErrorKind::InvalidData));
        }
        if self.place != at {
            self.place = self.file.seek(SeekFrom::Start(at))?;
        }
        let n = read_some(&mut self.file, buf)?;
        if n == 0 {
            return Err(io::Error::from(ErrorKind::UnexpectedEof));
        }
        self.place = at.saturating_add(n as u64);
        Ok(n)
    }
}

/// One read, which is tried again where a signal interrupts it.
fn read_some<F: Read>(file: &mut F, buf: &mut [u8]) -> io::Result<usize>
    ensures fits { IfOk result (λ n. n ≤ length buf.old) }
{
    for _ in 1..TRIES {
        match file.read(buf) {
            Err(error) if error.kind() == ErrorKind::Interrupted => {}
            outcome => return outcome,
        }
    }
    file.read(buf)
}
