//! Why a loader sees nothing of a file.

ghost use Rattle.std.specs.Prelude.{◌≡◌};
ghost use Rattle.byte_view.specs.Checks.{flaw};
ghost use Rattle.elf_face.specs.Faults.{flaw_of};

use byte_view::Flaw;
use byte_view::flaws::BAD_NAME;

/// Why a loader sees nothing of a file.
#[derive(Clone, Copy, Debug, PartialEq, Eq)]
pub enum FaceFault {
    /// The first flaw of the file.
    Flawed(Flaw),
    /// Memory is refused.
    NoMemory,
}

/// The flaw of the file. `None` for want of memory, which says nothing of the file.
pub fn flaw_of(fault: &FaceFault) -> Option<Flaw>
    ensures { result ≡ flaw_of fault.now }
{
    match fault {
        FaceFault::Flawed(flaw) => Some(*flaw),
        FaceFault::NoMemory => None,
    }
}

/// A name that is not UTF-8, by its place.
pub(crate) fn bad_name(at: u64) -> FaceFault
    ensures { result ≡ FaceFault.Flawed (flaw BAD_NAME at 0) }
{
    FaceFault::Flawed(Flaw {
        code: BAD_NAME,
        a: at,
        b: 0,
    })
}
