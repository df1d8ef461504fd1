//! Why a file's headers can't be read.

ghost use Rattle.std.specs.Prelude.{◌≡◌};

use byte_view::flaws::SHORT;

/// Why a file's headers can't be read.
#[derive(Clone, Copy, Debug, PartialEq, Eq)]
pub enum ElfFault {
    /// The first flaw of the file, by its number, and up to two numbers that say where or what.
    Flawed { code: u8, a: u64, b: u64 },
    /// Memory is refused.
    NoMemory,
}

/// The flaw that has one number.
pub(crate) fn flawed(code: u8, a: u64) -> ElfFault
    ensures { result ≡ ElfFault.Flawed code a 0 }
{
    ElfFault::Flawed { code, a, b: 0 }
}

/// The file ends before what is read of it.
pub(crate) fn short(need: u64, have: u64) -> ElfFault
    ensures { result ≡ ElfFault.Flawed SHORT need have }
{
    ElfFault::Flawed {
        code: SHORT,
        a: need,
        b: have,
    }
}
