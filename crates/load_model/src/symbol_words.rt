//! What the words of a symbol say.
//!
//! System V gABI, Symbol Table; `specs/SymbolWords.antt` says the same.

ghost use Rattle.std.specs.Prelude.{◌≡◌};
ghost use Rattle.load_model.specs.SymbolWords.{has_value};

use crate::symbols::RawSym;
use byte_view::constants::{SHN_ABS, SHN_UNDEF, STT_TLS};

/// Whether a symbol has a value: one that is not 0, or that of a thread-local or an absolute
/// symbol.
pub fn has_value(s: &RawSym) -> bool
    ensures { result ≡ has_value s.now }
{
    s.value != 0 || (s.section != SHN_UNDEF && (s.info % 16 == STT_TLS || s.section == SHN_ABS))
}
