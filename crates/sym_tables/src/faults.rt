//! Why a file's symbols can't be read.

ghost use Rattle.std.specs.Prelude.{◌≡◌};
ghost use Rattle.byte_view.specs.Checks.{flaw};

use byte_view::Flaw;

/// Why a file's symbols can't be read.
#[derive(Clone, Copy, Debug, PartialEq, Eq)]
pub enum SymFault {
    /// The first flaw of the symbols and hash tables.
    Flawed(Flaw),
    /// Memory is refused.
    NoMemory,
}

/// The flaw that has one number.
pub(crate) fn flawed(code: u8, a: u64) -> SymFault
    ensures { result ≡ SymFault.Flawed (flaw code a 0) }
{
    SymFault::Flawed(Flaw { code, a, b: 0 })
}
