//! Why a file's dynamic table can't be read.

ghost use Rattle.std.specs.Prelude.{◌≡◌};

/// Why a file's dynamic table can't be read.
#[derive(Clone, Copy, Debug, PartialEq, Eq)]
pub enum DynFault {
    /// The first flaw of the table, by its number, and up to two numbers that say where or what.
    Flawed { code: u8, a: u64, b: u64 },
    /// Memory is refused.
    NoMemory,
}

/// The flaw that has one number.
pub(crate) fn flawed(code: u8, a: u64) -> DynFault
    ensures { result ≡ DynFault.Flawed code a 0 }
{
    DynFault::Flawed { code, a, b: 0 }
}
