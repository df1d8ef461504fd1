//! Why a file's symbol versions can't be read.

ghost use Rattle.std.specs.Prelude.{◌≡◌};
ghost use Rattle.byte_view.specs.Checks.{flaw};

use load_model::Flaw;

/// Why a file's symbol versions can't be read.
#[derive(Clone, Copy, Debug, PartialEq, Eq)]
pub enum VersionFault {
    /// The first flaw of the versions.
    Flawed(Flaw),
    /// Memory is refused.
    NoMemory,
}

/// The flaw with these numbers.
pub(crate) fn flawed(code: u8, a: u64, b: u64) -> VersionFault
    ensures { result ≡ VersionFault.Flawed (flaw code a b) }
{
    VersionFault::Flawed(Flaw { code, a, b })
}
