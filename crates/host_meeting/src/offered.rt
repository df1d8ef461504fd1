//! Which of the symbols of one name a reference accepts.
//!
//! The rule is said in `specs/Offers.antt` of `load_model`.

ghost use Rattle.std.specs.Prelude.{◌≡◌, ◌&&◌, filter, length, map, true, None};
ghost use Rattle.std.specs.List.{find};
ghost use Rattle.std.specs.Option.{option_copied};
ghost use Rattle.load_model.specs.Offers.{has_wanted_version, is_accepted, is_candidate, is_early, is_shown};
ghost use Rattle.host_meeting.specs.Named.{seen_sym, seen_syms};

use load_model::{Class, Sym, has_wanted_version, is_candidate, is_first_version};

/// The first of these symbols that is accepted where there are no others.
pub fn first_accepted<'b, 'a>(
    same: &'b [&'a Sym],
    versioned: bool,
    name: &[u8],
    version: Option<&[u8]>,
    class: Class,
) -> Option<&'b &'a Sym>
    ensures { seen_sym result
        ≡ find (is_accepted (seen_syms same.now) name.now class versioned
        (option_copied version.entry)) (seen_syms same.now) }
{
    if !versioned {
        return first_candidate(same, name, class);
    }
    match version {
        Some(wanted) => first_of_version(same, name, wanted, class),
        None => first_without_version(same, name, class),
    }
}

/// The first candidate.
fn first_candidate<'b, 'a>(same: &'b [&'a Sym], name: &[u8], class: Class) -> Option<&'b &'a Sym>
    ensures { option_copied result ≡ find (λ s. is_candidate name.now class s.now) same.now }
{
    same.iter().find(|s| is_candidate(s, name, class))
}

/// The first candidate that a reference with this version accepts.
fn first_of_version<'b, 'a>(
    same: &'b [&'a Sym],
    name: &[u8],
    wanted: &[u8],
    class: Class,
) -> Option<&'b &'a Sym>
    ensures { option_copied result ≡ find
        (λ s. is_candidate name.now class s.now && has_wanted_version wanted.now s.now) same.now }
{
    same.iter().find(|s| is_candidate(s, name, class) && has_wanted_version(s, wanted))
}

/// The first candidate that a reference without a version accepts.
fn first_without_version<'b, 'a>(
    same: &'b [&'a Sym],
    name: &[u8],
    class: Class,
) -> Option<&'b &'a Sym>
    ensures { seen_sym result
        ≡ find (is_accepted (seen_syms same.now) name.now class true None) (seen_syms same.now) }
{
    if let Some(early) = first_early(same, name, class) {
        return Some(early);
    }
    if count_shown(same, name, class) == 1 {
        first_shown(same, name, class)
    } else {
        None
    }
}

/// The first candidate of version index 1 or 2.
fn first_early<'b, 'a>(same: &'b [&'a Sym], name: &[u8], class: Class) -> Option<&'b &'a Sym>
    ensures { option_copied result ≡ find (λ s. is_early name.now class s.now) same.now }
{
    same.iter().find(|s| is_candidate(s, name, class) && is_first_version(&s.version))
}

/// The first candidate that is not hidden.
fn first_shown<'b, 'a>(same: &'b [&'a Sym], name: &[u8], class: Class) -> Option<&'b &'a Sym>
    ensures { option_copied result ≡ find (λ s. is_shown name.now class s.now) same.now }
{
    same.iter().find(|s| is_shown(s, name, class))
}

/// How many candidates are not hidden.
fn count_shown(same: &[&Sym], name: &[u8], class: Class) -> usize
    ensures { result ≡ length (filter (λ s. is_shown name.now class s.now) same.now) }
{
    same.iter().filter(|s| is_shown(s, name, class)).count()
}

/// Whether it is a candidate that is not hidden.
fn is_shown(s: &Sym, name: &[u8], class: Class) -> bool
    ensures { result ≡ is_shown name.now class s.now }
{
    is_candidate(s, name, class) && !s.hidden
}
