ghost use Rattle.std.specs.Prelude.{◌≡◌, [], ◌∷◌, ◌++◌, option_map};
ghost use Rattle.std.specs.Prelude.{IsSome, IsNone, OnOk, OnErr, IfOk, IsErr, IsTrue};
ghost use Rattle.ports.specs.Calls.{is_to_fail, with_failing};
ghost use Rattle.ports.specs.Folder.{begun, closed, empty_folder, grown, grown_file};
ghost use Rattle.ports.specs.Folder.{root_state, with_root};
ghost use Rattle.ports.specs.InMemory.{after_err, after_ok, uncalled, view_of};
ghost use Rattle.ports.specs.MemOut.{open_file};
ghost use Rattle.ports.specs.View.{HasCause};

use crate::calls::Calls;
use crate::{Failed, MemFile, OutDir, RootState};
use load_model::{List, Name, NoMemory, Text};
use path_text::{Abs, Rel};
use std::alloc::{AllocError, Global};
use std::marker::Model;

// the numbers of the methods
const ROOT: u8 = 0;

const BEGIN: u8 = 1;

const APPEND: u8 = 2;

const FINISH: u8 = 3;

/// A file that is being written.
#[derive(Drop)]
pub struct OpenFile {
    path: Rel,
    executable: bool,
    bytes: Vec<u8>,
}

/// A folder in memory, which tells its files and its roots. Of its calls those fail that are to,
/// and those for which memory was refused; a failing call takes nothing.
#[derive(Drop)]
pub struct MemOut {
    alloc: Global,
    finished: List<MemFile>,
    pending: Option<OpenFile>,
    roots: List<Name>,
    calls: Calls,
}

impl Model for MemOut {
    ghost use Rattle.std.specs.Prelude.{option_map};
    ghost use Rattle.ports.specs.Folder.{Folder};
    ghost use Rattle.ports.specs.InMemory.{InMemory};
    ghost use Rattle.ports.specs.MemOut.{open_file};

    ghost Value = { InMemory Folder };

    ghost view = { λ folder. record {
      held = record {
        finished = folder.finished;
        pending = option_map open_file folder.pending;
        roots = folder.roots;
      };
      calls = folder.calls;
    } };
}

impl MemOut {
    /// A folder without files, of which no root was opened and no call is to fail.
    pub fn new(alloc: Global) -> Result<MemOut, NoMemory>
        ensures { IfOk result (λ folder. folder ≡ uncalled empty_folder) }
    {
        Ok(MemOut {
            alloc,
            finished: List::new(alloc),
            pending: None,
            roots: List::new(alloc),
            calls: Calls::new(alloc),
        })
    }

    /// Puts the number of a call, from 1, on the list of those that are to fail. `root` is method
    /// 0, `begin` 1, `append` 2, `finish` 3.
    pub fn fail_at(&mut self, method: u8, call: u64) -> Result<(), NoMemory>
        ensures ok { OnOk result (self.new.calls ≡ with_failing self.old.calls method call) }
        ensures err { OnErr result (self.new.calls ≡ self.old.calls) }
        ensures stays { self.new.held ≡ self.old.held }
    {
        self.calls.fail_at(method, call)
    }

    /// The finished files, in order.
    pub fn finished(&self) -> &[MemFile]
        ensures { result.now ≡ self.now.held.finished }
    {
        self.finished.as_slice()
    }

    /// The paths of the roots that were opened, in order.
    pub fn roots(&self) -> &[Name]
        ensures { result.now ≡ self.now.held.roots }
    {
        self.roots.as_slice()
    }

    /// How many growths memory refused to the folder.
    pub fn refused(&self) -> u64
        ensures { result ≡ self.now.calls.refused }
    {
        self.calls.refused()
    }
}

impl OutDir for MemOut {
    ghost use Rattle.ports.specs.InMemory.{view_of};

    ghost seen = { view_of };

    fn root(&mut self, path: &Abs) -> Result<RootState, Failed>
        ensures listed { IsTrue (is_to_fail self.old.calls ROOT) → IsErr result }
        ensures state { IfOk result (λ state. state ≡ root_state self.old.held.finished) }
        ensures ok { OnOk result (self.new ≡ after_ok (with_root path.now) ROOT self.old) }
        ensures err { OnErr result (self.new ≡ after_err ROOT self.old) }
        ensures cause { HasCause (view_of self.old) (view_of self.new) result }
    {
        if self.calls.strikes(ROOT) {
            return Err(Failed);
        }
        if remember(self.alloc, &mut self.roots, path).is_err() {
            return Err(self.calls.refuse());
        }
        let _unfinished = self.pending.take();
        Ok(root_state(self.finished.as_slice()))
    }

    fn begin(&mut self, path: &Rel, executable: bool) -> Result<(), Failed>
        requires { IsNone self.old.held.pending }
        ensures listed { IsTrue (is_to_fail self.old.calls BEGIN) → IsErr result }
        ensures ok { OnOk result (self.new ≡ after_ok (begun path.now executable) BEGIN self.old) }
        ensures err { OnErr result (self.new ≡ after_err BEGIN self.old) }
        ensures cause { HasCause (view_of self.old) (view_of self.new) result }
    {
        if self.calls.strikes(BEGIN) {
            return Err(Failed);
        }
        let Ok(path) = path.copy(self.alloc) else {
            return Err(self.calls.refuse());
        };
        self.pending = Some(OpenFile {
            path,
            executable,
            bytes: Vec::new(self.alloc),
        });
        Ok(())
    }

    fn append(&mut self, bytes: &[u8]) -> Result<(), Failed>
        requires { IsSome self.old.held.pending }
        ensures listed { IsTrue (is_to_fail self.old.calls APPEND) → IsErr result }
        ensures ok { OnOk result (self.new ≡ after_ok (grown bytes.now) APPEND self.old) }
        ensures err { OnErr result (self.new ≡ after_err APPEND self.old) }
        ensures cause { HasCause (view_of self.old) (view_of self.new) result }
    {
        if self.calls.strikes(APPEND) {
            return Err(Failed);
        }
        if grow(&mut self.pending, bytes).is_err() {
            return Err(self.calls.refuse());
        }
        Ok(())
    }

    fn finish(&mut self) -> Result<(), Failed>
        requires { IsSome self.old.held.pending }
        ensures listed { IsTrue (is_to_fail self.old.calls FINISH) → IsErr result }
        ensures ok { OnOk result (self.new ≡ after_ok closed FINISH self.old) }
        ensures err { OnErr result (self.new ≡ after_err FINISH self.old) }
        ensures cause { HasCause (view_of self.old) (view_of self.new) result }
    {
        if self.calls.strikes(FINISH) {
            return Err(Failed);
        }
        let Some(file) = &self.pending else {
            unreachable!()
        };
        if keep(self.alloc, &mut self.finished, file).is_err() {
            return Err(self.calls.refuse());
        }
        self.pending = None;
        Ok(())
    }
}

fn root_state(finished: &[MemFile]) -> RootState
    ensures { result ≡ root_state finished.now }
{
    if finished.is_empty() {
        RootState::Empty
    } else {
        RootState::NotEmpty
    }
}

// Adds a path at the end.
fn remember(alloc: Global, roots: &mut List<Name>, path: &Abs) -> Result<(), NoMemory>
    ensures ok { OnOk result (roots.new ≡ roots.old ++ path.now ∷ []) }
    ensures err { OnErr result (roots.new ≡ roots.old) }
{
    roots.push(Name::from_bytes(alloc, path.as_str().as_bytes())?)
}

// Adds a piece to the open file.
fn grow(pending: &mut Option<OpenFile>, bytes: &[u8]) -> Result<(), AllocError>
    requires { IsSome pending.old }
    ensures ok { OnOk result (option_map open_file pending.new
        ≡ option_map (grown_file bytes.now) (option_map open_file pending.old)) }
    ensures err { OnErr result
        (option_map open_file pending.new ≡ option_map open_file pending.old) }
{
    match pending {
        Some(file) => file.bytes.extend_from_slice(bytes),
        None => unreachable!(),
    }
}

// Adds a copy of the open file at the end of the finished files.
fn keep(alloc: Global, finished: &mut List<MemFile>, file: &OpenFile) -> Result<(), NoMemory>
    ensures ok { OnOk result (finished.new ≡ finished.old ++ open_file file.now ∷ []) }
    ensures err { OnErr result (finished.new ≡ finished.old) }
{
    let copy = MemFile {
        path: file.path.copy(alloc)?,
        executable: file.executable,
        bytes: Text::from_bytes(alloc, file.bytes.as_slice())?,
    };
    finished.push(copy)
}
