//! What a loader keeps of the files that it reads, over any tree, and the opener over a tree: it
//! reads each file whole, keeps its face and hash tables, and lets the bytes go.
//!
//! What is known of the faces is said in `specs/Names.antt` and `specs/MachineFaces.antt`.

ghost use Rattle.std.specs.Prelude.{◌≡◌, [], All, IfErr, IfOk, Some, length, map, slice_get};
ghost use Rattle.answers.specs.Told.{WhereTold};
ghost use Rattle.load_model.specs.Bindings.{offered_by};
ghost use Rattle.load_model.specs.Opening.{AreFew};
ghost use Rattle.ports.specs.Reading.{bytes_at};
ghost use Rattle.ports.specs.View.{OnlyReads};
ghost use Rattle.tree_opener.specs.Keeping.{IsKept};
ghost use Rattle.tree_opener.specs.Names.{IsFaceFor};
ghost use Rattle.tree_opener.specs.Reading.{IsReadCause, IsSeenFor, seen_in};

use crate::faces::FaceWithTables;
use crate::reading::{FileAt, Seen, WINDOW, see};
use crate::selecting::selected;
use crate::stops::ReadStop;
use elf_face::Loaded;
use hash_lookup::Tables;
use load_model::{Face, Name, NoMemory, OpenFault, Opened, Opener};
use path_text::Abs;
use ports::{Found, ProbeStop, Tree};
use std::alloc::Global;
use std::marker::Model;

/// What a loader for one machine keeps of the files that it reads, over any tree: their faces in
/// the order in which they were read, each with the hash tables by which names are looked up in
/// its file.
#[derive(Drop)]
pub struct TreeOpener {
    machine: u16,
    faces: Vec<Face>,
    tables: Vec<Tables>,
    /// What each read fills.
    window: Vec<u8>,
}

impl Model for TreeOpener {
    ghost use Rattle.std.specs.Prelude.{◌<◌, map, vec_len};
    ghost use Rattle.tree_opener.specs.MachineFaces.{AreFacesFor, MachineFaces};

    ghost Value = { MachineFaces };

    ghost view = { λ o. record { machine = o.machine; faces = o.faces.items } };

    ghost invariant = { λ o.
        AreFacesFor o.machine o.faces.items (map (λ t. t.offered) o.tables.items)
        × (0 < vec_len o.window) };
}

impl TreeOpener {
    /// No faces yet, for programs of this machine.
    pub fn new(alloc: Global, machine: u16) -> Result<TreeOpener, NoMemory>
        ensures machine { IfOk result (λ opener. opener.machine ≡ machine) }
        ensures faces { IfOk result (λ opener. opener.faces ≡ []) }
    {
        match vec![in alloc; 0; WINDOW] {
            Ok(window) => Ok(TreeOpener {
                machine,
                faces: Vec::new(alloc),
                tables: Vec::new(alloc),
                window,
            }),
            Err(_) => Err(NoMemory),
        }
    }

    /// The faces, each of a file for the machine, with names that are texts.
    pub fn faces(&self) -> &[Face]
        ensures faces { result.now ≡ self.now.faces }
        ensures few { AreFew self.now.faces }
        ensures known { All (IsFaceFor self.now.machine) self.now.faces }
    {
        self.faces.as_slice()
    }

    /// The tables of the faces, in their order.
    pub fn tables(&self) -> &[Tables]
        ensures { map (λ t. t.offered) result.now ≡ map offered_by self.now.faces }
    {
        self.tables.as_slice()
    }

    /// Keeps the faces at these places alone, in the order of the places. Where these do not come
    /// in order, each behind the one before, this is told as want of memory.
    pub fn select(self, alloc: Global, places: &[u32]) -> Result<TreeOpener, NoMemory>
        ensures machine { IfOk result (λ opener. opener.machine ≡ self.machine) }
        ensures faces { IfOk result (λ opener.
            map (λ face. Some face) opener.faces ≡ map (slice_get self.faces) places.now) }
    {
        let TreeOpener {
            machine,
            faces,
            tables,
            window,
        } = self;
        let (Ok(faces), Ok(tables)) = (
            selected(alloc, faces, places),
            selected(alloc, tables, places),
        ) else {
            return Err(NoMemory);
        };
        Ok(TreeOpener {
            machine,
            faces,
            tables,
            window,
        })
    }

    /// Reads a file of a tree as a loader does.
    fn see<T: Tree>(
        &mut self,
        alloc: Global,
        tree: &mut T,
        file: &FileAt<'_>,
    ) -> Result<Seen, ReadStop>
        requires { WhereTold (T.seen tree.old).told
            (λ world. length (bytes_at world file.now.path.now) ≡ file.now.len) }
        ensures seen { IfOk result (λ seen. WhereTold (T.seen tree.old).told
            (λ world. seen ≡ seen_in self.old.machine (bytes_at world file.now.path.now))) }
        ensures known { IfOk result (λ seen. IsSeenFor self.old.machine seen) }
        ensures cause { IfErr result
            (λ stop. IsReadCause (T.seen tree.old).faults (T.seen tree.new).faults stop) }
        ensures only_reads { OnlyReads (T.seen tree.old) (T.seen tree.new) }
        ensures same { self.new ≡ self.old }
    {
        see(alloc, tree, file, self.machine, self.window.as_mut_slice())
    }

    /// Keeps the face of an object with this identity.
    fn keep(&mut self, id: Name, face: FaceWithTables) -> Result<Opened, OpenFault>
        requires { IsFaceFor self.old.machine face }
        ensures machine { self.new.machine ≡ self.old.machine }
        ensures kept { IsKept self.old.faces self.new.faces id face result }
    {
        let place = self.faces.len() as u64;
        if place + 1 >= 1 << 32 {
            return Err(OpenFault::NoMemory);
        }
        let Loaded { face, tables } = face.into_loaded();
        match self.tables.push(tables) {
            Ok(()) => {}
            Err(_) => return Err(OpenFault::NoMemory),
        }
        match self.faces.push(face) {
            Ok(()) => Ok(Opened::Object {
                id,
                face: place as u32,
            }),
            Err(_) => {
                let _ = self.tables.pop();
                Err(OpenFault::NoMemory)
            }
        }
    }
}

/// An opener over a tree.
#[derive(Drop)]
pub struct TreeView<'a, 'b, T: Tree> {
    pub opener: &'a mut TreeOpener,
    pub tree: &'b mut T,
}

impl<T: Tree> Opener for TreeView<'_, '_, T> {
    ghost use Rattle.tree_opener.specs.Loans.{both_loans};

    ghost seen = { λ view. record {
      loan = both_loans view.opener.ghost_name view.tree.ghost_name;
      told = (T.seen view.tree.now).told;
      machine = view.opener.now.machine;
      faces = view.opener.now.faces;
      faults = (T.seen view.tree.now).faults;
    } };

    fn open(&mut self, alloc: Global, path: &Abs) -> Result<Opened, OpenFault> {
        let (id, len) = match self.tree.probe(alloc, path) {
            Ok(Found::Absent) => return Ok(Opened::Absent),
            Ok(Found::File { id, len }) => (id, len),
            Err(ProbeStop::Failed) => return Err(OpenFault::Read),
            Err(ProbeStop::NoMemory) => return Err(OpenFault::NoMemory),
        };
        let file = FileAt { path, len };
        match self.opener.see(alloc, &mut *self.tree, &file) {
            Ok(Seen::ForAnother) => Ok(Opened::Other),
            Ok(Seen::Faced(face)) => self.opener.keep(id, face),
            Ok(Seen::Flawed(flaw)) => match path.copy(alloc) {
                Ok(path) => Err(OpenFault::Damaged { path, flaw }),
                Err(_) => Err(OpenFault::NoMemory),
            },
            Err(ReadStop::Failed) => Err(OpenFault::Read),
            Err(ReadStop::NoMemory) => Err(OpenFault::NoMemory),
        }
    }

    fn faces(&self) -> &[Face] {
        self.opener.faces()
    }
}
