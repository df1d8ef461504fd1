//! A search in directories alone.

use byte_view::flaws::NOT_ELF;
use load_model::{Face, Flaw, Name, OpenFault, Opened, Opener};
use path_text::Abs;
use search_paths::{Hit, SearchStop, search_dirs};
use std::alloc::Global;
use std::test::Fail;

/// Nothing but a damaged file in each folder.
#[derive(Drop)]
struct Broken;

impl Opener for Broken {
    ghost use Rattle.std.specs.Prelude.{[], None};
    ghost use Rattle.byte_view.specs.declared.constants.TheConstants.{EM_X86_64};
    ghost use Rattle.load_model.specs.Opening.{OpenerView};

    ghost seen = { λ _. record {
      told = None;
      machine = EM_X86_64;
      faces = [];
      faults = 0;
      loan = 0;
    } };

    fn open(&mut self, alloc: Global, path: &Abs) -> Result<Opened, OpenFault> {
        if path.base() != b"libc.so.6".as_slice() {
            return Ok(Opened::Absent);
        }
        match path.copy(alloc) {
            Ok(path) => Err(OpenFault::Damaged {
                path,
                flaw: Flaw {
                    code: NOT_ELF,
                    a: 0,
                    b: 0,
                },
            }),
            Err(_) => Err(OpenFault::NoMemory),
        }
    }

    fn faces(&self) -> &[Face] {
        &[]
    }
}

#[test]
fn damaged_file_decides(rt: HostRuntime) -> Result<(), Fail> {
    let alloc = rt.alloc();
    let Ok(dir) = Abs::read(alloc, b"/lib") else {
        return Err(Fail::from("no folder"));
    };
    let dirs = [dir];
    let mut opener = Broken;
    let other = Name::from_bytes(alloc, b"libm.so.6")?;
    let missing = search_dirs(alloc, &mut opener, dirs.as_slice(), &other);
    assert!(rt; matches!(missing, Ok(Hit::Missing)));
    let broken = Name::from_bytes(alloc, b"libc.so.6")?;
    let stop = search_dirs(alloc, &mut opener, dirs.as_slice(), &broken);
    assert!(rt; is_damaged(&stop));
    Ok(())
}

fn is_damaged(answer: &Result<Hit, SearchStop>) -> bool {
    matches!(answer, Err(SearchStop::Open(OpenFault::Damaged { .. })))
}
