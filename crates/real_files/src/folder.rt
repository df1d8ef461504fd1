//! The folder of this machine that is written.

ghost use Rattle.std.specs.Prelude.{◌≡◌, ◌≤◌, IsSome, IsNone, OnErr, OnOk};
ghost use Rattle.real_files.specs.Writing.{TakesPiece};

use crate::counting::counted;
use path_text::{Abs, Rel};
use ports::{Failed, OutDir, RootState};
use std::fs::{File, OpenFile, Permissions};
use std::io::{ErrorKind, Write};
use std::os::unix::fs::PermissionsExt;
use std::path::PathBuf;
use std::rt::Files;
use std::{fs, io};

// the name of a file in the root while it is written
const UNFINISHED: &str = ".appdir-unfinished";

// `r--r--r--`, and by how much an execute bit stands below its read bit
const READ_BITS: u32 = 0o444;

const EXECUTE_SHIFT: u32 = 2;

/// A folder of this machine.
///
/// Its root is made where it is absent, and so are the folders on the way to it and to its files. A
/// root is not empty where it holds any entry: a file, a link or a folder, hidden or not.
///
/// A file is written under one name in the root, and takes its place when it is whole and the
/// system has it on disk. Where something stands at its place already, also a link, that is a fault
/// and nothing is written through it. A file that cannot be finished is removed.
///
/// It tells nothing but its count of faults, to which each error adds one.
#[derive(Drop)]
pub struct RealOut<R: Files + AllocGlobal + Clone + Drop> {
    rt: R,
    root: Option<PathBuf>,
    writing: Option<Unfinished<R::File>>,
    faults: u64,
}

/// A file that is being written.
#[derive(Drop)]
struct Unfinished<F> {
    file: F,
    executable: bool,
    // where it stands, and where it is to stand
    temporary: PathBuf,
    place: PathBuf,
}

impl<R: Files + AllocGlobal + Clone + Drop> RealOut<R> {
    pub fn new(rt: R) -> RealOut<R>
        ensures { result.faults ≡ 0 }
    {
        RealOut {
            rt,
            root: None,
            writing: None,
            faults: 0,
        }
    }

    /// How many errors there were. The count stands still at its last value.
    pub fn faults(&self) -> u64
        ensures { result ≡ self.now.faults }
    {
        self.faults
    }

    /// Removes the open file, where there is one and that can be done.
    pub fn give_up(&mut self)
        ensures given_up { IsNone self.new.writing }
        ensures faults { self.new.faults ≡ self.old.faults }
        ensures root { self.new.root ≡ self.old.root }
    {
        if let Some(unfinished) = self.writing.take() {
            unfinished.remove(&self.rt);
        }
    }

    /// Makes the folder where it is absent, looks whether it is empty, and remembers it as the
    /// root.
    fn open_root(&mut self, path: &str) -> io::Result<RootState>
        ensures opened { OnOk result (IsSome self.new.root) }
        ensures given_up { OnOk result (IsNone self.new.writing) }
        ensures faults { self.new.faults ≡ self.old.faults }
    {
        let root = PathBuf::from_str(self.rt.alloc(), path)?;
        fs::create_dir_all(&self.rt, path)?;
        self.give_up();
        let state = root_state(&self.rt, path)?;
        self.root = Some(root);
        Ok(state)
    }

    /// Opens a file that is to have this path below the root.
    fn create(&mut self, path: &str, executable: bool) -> io::Result<()>
        ensures needs_root { OnOk result (IsSome self.old.root) }
        ensures begun { OnOk result (IsSome self.new.writing) }
        ensures faults { self.new.faults ≡ self.old.faults }
    {
        let (temporary, place) = match &self.root {
            Some(root) => (
                root.join(self.rt.alloc(), UNFINISHED)?,
                root.join(self.rt.alloc(), path)?,
            ),
            None => return Err(out_of_turn()),
        };
        if let Some(folder) = place.parent() {
            fs::create_dir_all(&self.rt, folder)?;
        }
        let file = File::create_new(&self.rt, temporary.as_path())?;
        self.writing = Some(Unfinished {
            file,
            executable,
            temporary,
            place,
        });
        Ok(())
    }

    /// Writes the whole piece. A write that takes nothing is an error, and after each error the
    /// file is given up.
    fn write(&mut self, bytes: &[u8]) -> io::Result<()>
        ensures taken { OnOk result (TakesPiece (λ unfinished. R.File.contents unfinished.file)
            self.old.writing self.new.writing bytes.now) }
        ensures given_up { OnErr result (IsNone self.new.writing) }
        ensures faults { self.new.faults ≡ self.old.faults }
    {
        let Some(mut unfinished) = self.writing.take() else {
            return Err(out_of_turn());
        };
        match unfinished.file.write_all(bytes) {
            Ok(()) => {
                self.writing = Some(unfinished);
                Ok(())
            }
            Err(error) => {
                unfinished.remove(&self.rt);
                Err(error)
            }
        }
    }

    /// Gives the open file its place.
    fn close(&mut self) -> io::Result<()>
        ensures needs_file { OnOk result (IsSome self.old.writing) }
        ensures closed { IsNone self.new.writing }
        ensures faults { self.new.faults ≡ self.old.faults }
    {
        let Some(mut unfinished) = self.writing.take() else {
            return Err(out_of_turn());
        };
        let outcome = unfinished.finish(&self.rt);
        if outcome.is_err() {
            unfinished.remove(&self.rt);
        }
        outcome
    }
}

impl<R: Files + AllocGlobal + Clone + Drop> OutDir for RealOut<R> {
    ghost use Rattle.real_files.specs.Counting.{CountsErrors, counts};

    ghost seen = { λ folder. counts folder.faults };

    fn root(&mut self, path: &Abs) -> Result<RootState, Failed>
        ensures opened { OnOk result (IsSome self.new.root) }
        ensures given_up { OnOk result (IsNone self.new.writing) }
        ensures count { CountsErrors self.old.faults self.new.faults result }
        ensures never_falls { self.old.faults ≤ self.new.faults }
    {
        let outcome = self.open_root(path.as_str());
        counted(outcome, &mut self.faults)
    }

    fn begin(&mut self, path: &Rel, executable: bool) -> Result<(), Failed>
        ensures needs_root { OnOk result (IsSome self.old.root) }
        ensures begun { OnOk result (IsSome self.new.writing) }
        ensures count { CountsErrors self.old.faults self.new.faults result }
        ensures never_falls { self.old.faults ≤ self.new.faults }
    {
        let outcome = self.create(path.as_str(), executable);
        counted(outcome, &mut self.faults)
    }

    fn append(&mut self, bytes: &[u8]) -> Result<(), Failed>
        ensures taken { OnOk result (TakesPiece (λ unfinished. R.File.contents unfinished.file)
            self.old.writing self.new.writing bytes.now) }
        ensures given_up { OnErr result (IsNone self.new.writing) }
        ensures count { CountsErrors self.old.faults self.new.faults result }
        ensures never_falls { self.old.faults ≤ self.new.faults }
    {
        let outcome = self.write(bytes);
        counted(outcome, &mut self.faults)
    }

    fn finish(&mut self) -> Result<(), Failed>
        ensures needs_file { OnOk result (IsSome self.old.writing) }
        ensures closed { IsNone self.new.writing }
        ensures count { CountsErrors self.old.faults self.new.faults result }
        ensures never_falls { self.old.faults ≤ self.new.faults }
    {
        let outcome = self.close();
        counted(outcome, &mut self.faults)
    }
}

impl<F: Write + OpenFile> Unfinished<F> {
    /// Gives the file its mode and its place. Before it has the place the system has it on disk, so
    /// that a late error of a write is seen.
    fn finish(&mut self, files: &impl Files) -> io::Result<()> {
        self.file.flush()?;
        if self.executable {
            let mode = self.file.metadata()?.permissions().mode();
            let permissions = Permissions::from_mode(with_execute_bits(mode));
            self.file.set_permissions(permissions)?;
        }
        self.file.sync_all()?;
        self.take_place(files)
    }

    /// Moves the file to its place. A link is not made where something stands.
    fn take_place(&self, files: &impl Files) -> io::Result<()> {
        match fs::hard_link(files, self.temporary.as_path(), self.place.as_path()) {
            Ok(()) => fs::remove_file(files, self.temporary.as_path()),
            Err(error) if may_lack_links(error.kind()) => self.rename(files),
            Err(error) => Err(error),
        }
    }

    /// Moves the file to its place, where nothing stands there, on a file system without links.
    fn rename(&self, files: &impl Files) -> io::Result<()> {
        match fs::symlink_metadata(files, self.place.as_path()) {
            Ok(_) => Err(io::Error::from(ErrorKind::AlreadyExists)),
            Err(error) if error.kind() == ErrorKind::NotFound => {
                fs::rename(files, self.temporary.as_path(), self.place.as_path())
            }
            Err(error) => Err(error),
        }
    }

    /// Removes the file, where that can be done.
    fn remove(&self, files: &impl Files) {
        let _ = fs::remove_file(files, self.temporary.as_path());
    }
}

/// The mode of a file with this one, which each that may read it may run.
fn with_execute_bits(mode: u32) -> u32 {
    mode | ((mode & READ_BITS) >> EXECUTE_SHIFT)
}

/// Whether a file system that knows no links may answer so.
fn may_lack_links(kind: ErrorKind) -> bool {
    kind == ErrorKind::PermissionDenied || kind == ErrorKind::Unsupported
}

/// No root was opened before, or no file.
fn out_of_turn() -> io::Error {
    io::Error::from(ErrorKind::InvalidInput)
}

/// Whether the folder holds an entry.
fn root_state<R>(rt: &R, path: &str) -> io::Result<RootState>
where
    R: Files + AllocGlobal + Clone + Drop,
{
    match fs::read_dir(rt, path)?.next() {
        None => Ok(RootState::Empty),
        Some(Ok(_)) => Ok(RootState::NotEmpty),
        // the name of this entry is no text
        Some(Err(error)) if error.kind() == ErrorKind::InvalidFilename => Ok(RootState::NotEmpty),
        Some(Err(error)) => Err(error),
    }
}
