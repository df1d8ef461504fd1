//! The bits of `DT_FLAGS` and `DT_FLAGS_1` that decide something here. All others are ignored.

ghost use Rattle.std.specs.Prelude.{⊤, ◌≡◌, ◌||◌, [], ◌∷◌, codes};
ghost use Rattle.byte_view.specs.DynamicFlaws.{has_bit};
ghost use Rattle.byte_view.specs.declared.constants.TheConstants.{DF_1_INTERPOSE, DF_1_NODEFLIB, DF_SYMBOLIC};

use bitflags::{Flag, Flags, bitflag_items};
use byte_view::constants::{DF_1_INTERPOSE, DF_1_NODEFLIB, DF_SYMBOLIC};

/// The value of `DT_FLAGS`.
#[derive(Clone, Copy, PartialEq, Eq, Debug)]
pub struct ObjectFlags(pub u64);

bitflag_items! {
    impl ObjectFlags: u64 {
        const SYMBOLIC = DF_SYMBOLIC;
    }
}

impl Flags for ObjectFlags {
    type Bits = u64;

    ghost exact = { ⊤ };

    ghost table = { (codes "SYMBOLIC", DF_SYMBOLIC) ∷ [] };

    ghost set_of = { λ flags. flags.0 };

    fn flags<'a>() -> &'a [Flag<ObjectFlags>] {
        ObjectFlags::FLAGS
    }

    fn bits(&self) -> u64 {
        self.0
    }

    fn from_bits_retain(bits: u64) -> ObjectFlags {
        ObjectFlags(bits)
    }
}

/// The value of `DT_FLAGS_1`.
#[derive(Clone, Copy, PartialEq, Eq, Debug)]
pub struct StateFlags(pub u64);

bitflag_items! {
    impl StateFlags: u64 {
        const INTERPOSE = DF_1_INTERPOSE;
        const NODEFLIB = DF_1_NODEFLIB;
    }
}

impl Flags for StateFlags {
    type Bits = u64;

    ghost exact = { ⊤ };

    ghost table = { (codes "INTERPOSE", DF_1_INTERPOSE) ∷ (codes "NODEFLIB", DF_1_NODEFLIB) ∷ [] };

    ghost set_of = { λ flags. flags.0 };

    fn flags<'a>() -> &'a [Flag<StateFlags>] {
        StateFlags::FLAGS
    }

    fn bits(&self) -> u64 {
        self.0
    }

    fn from_bits_retain(bits: u64) -> StateFlags {
        StateFlags(bits)
    }
}

impl StateFlags {
    /// Whether the bits change how libraries are found or bound.
    pub(crate) fn is_refused(self) -> bool
        ensures { result ≡ (has_bit DF_1_INTERPOSE self.0 || has_bit DF_1_NODEFLIB self.0) }
    {
        self.intersects(StateFlags::INTERPOSE) || self.intersects(StateFlags::NODEFLIB)
    }
}
