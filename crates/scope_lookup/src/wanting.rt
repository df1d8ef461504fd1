//! What a reference wants of the objects of its scope.
//!
//! System V gABI, Symbol Table; Linux Standard Base, Symbol Versioning. What it finds is said in
//! `specs/Finding.antt`.

ghost use Rattle.std.specs.Prelude.{◌≡◌};
ghost use Rattle.std.specs.Option.{option_copied};
ghost use Rattle.load_model.specs.Bindings.{wanted_version};

use load_model::{Class, Sym, Ver};

/// All that an offer to a reference depends on, besides the object that makes it.
#[derive(Clone, Copy, PartialEq, Eq)]
#[derive_where(Hash)]
pub struct Wanted<'a> {
    pub name: &'a [u8],
    pub version: Option<&'a [u8]>,
    // not hashed: at most three classes have the hash of one name and version
    #[derive_where(skip(Hash))]
    pub class: Class,
}

impl<'a> Wanted<'a> {
    /// What a reference by this symbol wants in this class.
    pub fn by(symbol: &'a Sym, class: Class) -> Wanted<'a>
        ensures name { result.name.now ≡ symbol.now.name }
        ensures version { option_copied result.version ≡ wanted_version symbol.now.version }
        ensures class { result.class ≡ class }
    {
        Wanted {
            name: symbol.name.as_bytes(),
            version: wanted_version(&symbol.version),
            class,
        }
    }
}

/// The name of the version that a reference asks for, if any.
fn wanted_version(version: &Ver) -> Option<&[u8]>
    ensures { option_copied result ≡ wanted_version version.now }
{
    match version {
        Ver::Local | Ver::Global => None,
        Ver::Named { name, .. } => Some(name.as_bytes()),
    }
}
