//! Which symbols a reference accepts, by name, version and class.
//!
//! Linux Standard Base, Symbol Versioning. The rule is said in `specs/Offers.antt` of `load_model`,
//! and in `specs/Finding.antt` as it is used here.

ghost use Rattle.std.specs.Prelude.{◌≡◌};
ghost use Rattle.hash_lookup.specs.Finding.{is_spare, is_sure, wish_of};

use load_model::{Class, Sym, has_wanted_version, is_candidate, is_first_version};

/// What a reference asks an object for, the object's symbols, and whether it has a table of version
/// indexes.
#[derive(Clone, Copy)]
pub(crate) struct Lookup<'a> {
    pub(crate) syms: &'a [Sym],
    pub(crate) name: &'a [u8],
    pub(crate) version: Option<&'a [u8]>,
    pub(crate) class: Class,
    pub(crate) versioned: bool,
}

impl Lookup<'_> {
    /// Whether the symbol is accepted whatever other symbols there are.
    #[tactic(auto, unfolding(crate::specs::Finding::is_sure))]
    pub(crate) fn is_sure(&self, s: &Sym) -> bool
        ensures { result ≡ is_sure (wish_of self.now) s.now }
    {
        let name = self.name;
        if !self.versioned {
            return is_candidate(s, name, self.class);
        }
        match self.version {
            Some(wanted) => is_candidate(s, name, self.class) && has_wanted_version(s, wanted),
            None => is_candidate(s, name, self.class) && is_first_version(&s.version),
        }
    }

    /// Whether the symbol is accepted where no symbol is sure, if it is the only one of its kind.
    #[tactic(auto, unfolding(crate::specs::Finding::is_spare))]
    pub(crate) fn is_spare(&self, s: &Sym) -> bool
        ensures { result ≡ is_spare (wish_of self.now) s.now }
    {
        if !self.versioned {
            return false;
        }
        match self.version {
            Some(_) => false,
            None => is_candidate(s, self.name, self.class) && !s.hidden,
        }
    }
}
