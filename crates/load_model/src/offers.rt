//! What an object offers to a reference.

ghost use Rattle.std.specs.Prelude.{◌≡◌, ◌==◌, ◌+◌, ◌<◌, ◌&&◌, IfSome, true, false, length, filter};
ghost use Rattle.std.specs.List.{list_any, position_from};
ghost use Rattle.std.specs.Option.{option_copied};
ghost use Rattle.load_model.specs.Offers.{has_version, has_wanted_version, is_accepted, is_candidate, is_early, is_first_version, is_global, is_local, is_open_to, is_one, is_shown, real_syms, suits};
ghost use Rattle.load_model.specs.SymbolWords.{is_bindable, is_found_by_name, is_shared, is_visible};

use crate::{Class, Face, Sym, Ver};
use byte_view::constants::{
    STB_GLOBAL, STB_GNU_UNIQUE, STB_WEAK, STT_COMMON, STT_FUNC, STT_GNU_IFUNC, STT_NOTYPE,
    STT_OBJECT, STT_TLS, STV_DEFAULT, STV_PROTECTED,
};

/// What references bind to in an object.
pub trait Offers {
    ghost use Rattle.std.specs.Prelude.{◌≡◌, ◌<◌, ◌^◌, length};
    ghost use Rattle.std.specs.Option.{option_copied};
    ghost use Rattle.load_model.specs.Offers.{Offered, offer_of};

    // the symbols, and whether there is a table of version indexes
    ghost offered: { Self → Offered };

    /// The index of the symbol that a reference by this name, with or without a version, binds to
    /// here.
    ///
    /// It is the least index of those that the rule in `docs/LOADER.md` accepts. Takes no memory.
    fn offer(&self, name: &[u8], version: Option<&[u8]>, class: Class) -> Option<u32>
        requires few { length (offered self.now).syms < 2 ^ 32 }
        ensures { result
            ≡ offer_of (offered self.now) name.now (option_copied version.entry) class };
}

impl Offers for Face {
    ghost offered = { λ face. record { syms = face.syms; versioned = face.versioned } };

    /// Goes through the symbols a fixed number of times.
    #[tactic(auto, unfolding(crate::specs::Offers::offer_of), using(crate::proofs::Selected::one_further, crate::proofs::Selected::none_further))]
    fn offer(&self, name: &[u8], version: Option<&[u8]>, class: Class) -> Option<u32> {
        let syms = real_syms(self.syms.as_slice());
        match first_accepted(syms, self.versioned, name, version, class) {
            Some(place) => Some((place + 1) as u32),
            None => None,
        }
    }
}

/// All but the symbol of index 0, which is none.
fn real_syms(syms: &[Sym]) -> &[Sym]
    ensures { result.now ≡ real_syms syms.now }
{
    match syms.split_first() {
        Some((_, later)) => later,
        None => syms,
    }
}

/// The place of the first symbol that is accepted.
fn first_accepted(
    syms: &[Sym],
    versioned: bool,
    name: &[u8],
    version: Option<&[u8]>,
    class: Class,
) -> Option<usize>
    ensures place { result ≡ position_from
        (is_accepted syms.now name.now class versioned (option_copied version.entry)) 0 syms.now }
    ensures bound { IfSome result (λ i. i < length syms.now) }
{
    if !versioned {
        return first_candidate(syms, name, class);
    }
    match version {
        Some(wanted) => first_of_version(syms, name, wanted, class),
        None => first_without_version(syms, name, class),
    }
}

/// The first candidate's place.
fn first_candidate(syms: &[Sym], name: &[u8], class: Class) -> Option<usize>
    ensures place { result ≡ position_from (is_candidate name.now class) 0 syms.now }
    ensures bound { IfSome result (λ i. i < length syms.now) }
{
    syms.iter().position(|s| is_candidate(s, name, class))
}

/// The place of the first candidate that a reference with this version accepts.
fn first_of_version(syms: &[Sym], name: &[u8], wanted: &[u8], class: Class) -> Option<usize>
    ensures place { result ≡ position_from
        (λ s. is_candidate name.now class s && has_wanted_version wanted.now s) 0 syms.now }
    ensures bound { IfSome result (λ i. i < length syms.now) }
{
    syms.iter().position(|s| is_candidate(s, name, class) && has_wanted_version(s, wanted))
}

/// The place of the first candidate that a reference without a version accepts.
#[tactic(auto, using(crate::proofs::Selected::early_first, crate::proofs::Selected::one_shown, crate::proofs::Selected::none_shown))]
fn first_without_version(syms: &[Sym], name: &[u8], class: Class) -> Option<usize>
    ensures place { result ≡ position_from
        (is_accepted syms.now name.now class true None) 0 syms.now }
    ensures bound { IfSome result (λ i. i < length syms.now) }
{
    if let Some(early) = first_early(syms, name, class) {
        return Some(early);
    }
    if count_shown(syms, name, class) == 1 {
        first_shown(syms, name, class)
    } else {
        None
    }
}

/// The place of the first candidate of version index 1 or 2.
fn first_early(syms: &[Sym], name: &[u8], class: Class) -> Option<usize>
    ensures place { result ≡ position_from (is_early name.now class) 0 syms.now }
    ensures bound { IfSome result (λ i. i < length syms.now) }
{
    syms.iter().position(|s| is_candidate(s, name, class) && is_first_version(&s.version))
}

/// The place of the first candidate that is not hidden.
fn first_shown(syms: &[Sym], name: &[u8], class: Class) -> Option<usize>
    ensures place { result ≡ position_from (is_shown name.now class) 0 syms.now }
    ensures bound { IfSome result (λ i. i < length syms.now) }
{
    syms.iter().position(|s| is_shown(s, name, class))
}

/// How many candidates are not hidden.
fn count_shown(syms: &[Sym], name: &[u8], class: Class) -> usize
    ensures { result ≡ length (filter (is_shown name.now class) syms.now) }
{
    syms.iter().filter(|s| is_shown(s, name, class)).count()
}

/// Whether it is a candidate that is not hidden.
fn is_shown(s: &Sym, name: &[u8], class: Class) -> bool
    ensures { result ≡ is_shown name.now class s.now }
{
    is_candidate(s, name, class) && !s.hidden
}

/// Whether it is an open symbol of this name, with a version index other than 0.
pub fn is_candidate(s: &Sym, name: &[u8], class: Class) -> bool
    ensures { result ≡ is_candidate name.now class s.now }
{
    is_open_to(s, class) && s.name.as_bytes() == name && !is_local(&s.version)
}

/// Whether it is open to references of this class.
fn is_open_to(s: &Sym, class: Class) -> bool
    ensures { result ≡ is_open_to class s.now }
{
    may_bind(s) && suits(class, s.defined)
}

/// Whether a reference of this class may go to such a symbol.
fn suits(class: Class, defined: bool) -> bool
    ensures { result ≡ suits class defined }
{
    match class {
        Class::Call => defined,
        Class::Plain | Class::Copy => true,
    }
}

/// Whether other objects may bind to it.
fn may_bind(s: &Sym) -> bool
    ensures { result ≡ is_bindable s.now.binding s.now.kind s.now.visibility s.now.value_set }
{
    is_bindable(s.binding, s.kind, s.visibility, s.value_set)
}

/// Whether other objects may bind to a symbol of this binding, type and visibility.
///
/// `value_set` says whether it has a value that a reference can bind to.
#[tactic(auto, unfolding(crate::specs::SymbolWords::is_bindable))]
pub fn is_bindable(binding: u8, kind: u8, visibility: u8, value_set: bool) -> bool
    ensures { result ≡ is_bindable binding kind visibility value_set }
{
    is_shared(binding) && is_found_by_name(kind) && is_visible(visibility) && value_set
}

/// Whether other objects see symbols of this binding.
pub fn is_shared(binding: u8) -> bool
    ensures { result ≡ is_shared binding }
{
    matches!(binding, STB_GLOBAL | STB_WEAK | STB_GNU_UNIQUE)
}

/// Whether symbols of this type are found by name.
fn is_found_by_name(kind: u8) -> bool
    ensures { result ≡ is_found_by_name kind }
{
    matches!(
        kind,
        STT_NOTYPE | STT_OBJECT | STT_FUNC | STT_COMMON | STT_TLS | STT_GNU_IFUNC
    )
}

/// Whether this visibility lets other objects see a symbol.
fn is_visible(visibility: u8) -> bool
    ensures { result ≡ is_visible visibility }
{
    visibility == STV_DEFAULT || visibility == STV_PROTECTED
}

/// Whether the version index is 0.
fn is_local(version: &Ver) -> bool
    ensures { result ≡ is_local version.now }
{
    match version {
        Ver::Local => true,
        Ver::Global | Ver::Named { .. } => false,
    }
}

/// Whether the version index is 1.
fn is_global(version: &Ver) -> bool
    ensures { result ≡ is_global version.now }
{
    match version {
        Ver::Global => true,
        Ver::Local | Ver::Named { .. } => false,
    }
}

/// Whether the version index is 1 or 2.
pub fn is_first_version(version: &Ver) -> bool
    ensures { result ≡ is_first_version version.now }
{
    match version {
        Ver::Local => false,
        Ver::Global => true,
        Ver::Named { index, .. } => *index == 2,
    }
}

/// Whether the version has this name.
fn has_version(version: &Ver, wanted: &[u8]) -> bool
    ensures { result ≡ has_version wanted.now version.now }
{
    match version {
        Ver::Local | Ver::Global => false,
        Ver::Named { name, .. } => name.as_bytes() == wanted,
    }
}

/// Whether it is of this version, or without one and not hidden.
pub fn has_wanted_version(s: &Sym, wanted: &[u8]) -> bool
    ensures { result ≡ has_wanted_version wanted.now s.now }
{
    has_version(&s.version, wanted) || is_global(&s.version) && !s.hidden
}
