//! An opener over files in memory, which tells nothing of what it has.

ghost use Rattle.load_model.specs.Opening.{IsFew};

use crate::files::Odd;
use byte_view::constants::EM_X86_64;
use byte_view::flaws::NOT_ELF;
use load_model::{Face, FaceTable, Flaw, List, Name, NoMemory, OpenFault, Opened, Opener};
use path_text::Abs;
use std::alloc::Global;

/// The flaw of a damaged file.
const FLAW: Flaw = Flaw {
    code: NOT_ELF,
    a: 0,
    b: 0,
};

/// What lies at a path. The face of an odd file is not looked at.
#[derive(Drop)]
pub struct Placed {
    pub path: Abs,
    pub id: Name,
    pub odd: Option<Odd>,
}

/// An opener of these files: each has its face at its own place.
#[derive(Drop)]
pub struct FileOpener {
    files: List<Placed>,
    faces: FaceTable,
}

impl FileOpener {
    /// No files.
    pub fn new(alloc: Global) -> Self {
        FileOpener {
            files: List::new(alloc),
            faces: FaceTable::new(alloc),
        }
    }

    /// Adds a file.
    pub fn add(&mut self, file: Placed, face: Face) -> Result<(), NoMemory>
        requires { IsFew face }
    {
        self.files.push(file)?;
        self.faces.add(face)?;
        Ok(())
    }
}

impl Opener for FileOpener {
    ghost use Rattle.std.specs.Prelude.{◌-◌, ◌^◌, None};
    ghost use Rattle.byte_view.specs.declared.constants.TheConstants.{EM_X86_64};
    ghost use Rattle.load_model.specs.Opening.{OpenerView};

    // its count of faults stands at its last value, so that a fault may come at any call
    ghost seen = { λ opener. record {
      told = None;
      machine = EM_X86_64;
      faces = opener.faces;
      faults = 2 ^ 64 - 1;
      loan = 0;
    } };

    fn open(&mut self, alloc: Global, path: &Abs) -> Result<Opened, OpenFault> {
        let count = self.faces.as_slice().len();
        let files = self.files.as_slice();
        let place = match files
            .iter()
            .position(|file| file.path.as_str() == path.as_str())
        {
            Some(place) if place < count => place,
            _ => return Ok(Opened::Absent),
        };
        match files[place].odd {
            Some(Odd::Other) => Ok(Opened::Other),
            Some(Odd::Damaged) => match path.copy(alloc) {
                Ok(path) => Err(OpenFault::Damaged { path, flaw: FLAW }),
                Err(_) => Err(OpenFault::NoMemory),
            },
            Some(Odd::Unreadable) => Err(OpenFault::Read),
            None => match files[place].id.copy(alloc) {
                Ok(id) => Ok(Opened::Object {
                    id,
                    face: place as u32,
                }),
                Err(_) => Err(OpenFault::NoMemory),
            },
        }
    }

    fn faces(&self) -> &[Face] {
        self.faces.as_slice()
    }
}
