//! Versions and looks in the order of the text, as `specs/Orders.antt` says.

ghost use Rattle.std.specs.Prelude.{◌≡◌};
ghost use Rattle.std.proofs.Common.{rules};
ghost use Rattle.std.specs.Cmp.{partial_order_from_own_ties, partial_order_from_total};
ghost use Rattle.std.specs.Cmp.Rules.{comparing};
ghost use Rattle.std.specs.Option.{option_cmp, option_copied};
ghost use Rattle.std.specs.Ordering.{as_partial_cmp, eq_by_cmp};
ghost use Rattle.host_record.specs.OrderLaws.{full_look_total, look_equivalence, look_partial_equivalence};
ghost use Rattle.host_record.specs.Orders.{answer_cmp, class_number, full_look_cmp, text_cmp, version_cmp};

use crate::records::{Answer, Look, RecVersion};
use load_model::Name;
use std::cmp::Ordering;

impl PartialEq for RecVersion {
    ghost eq = { eq_by_cmp version_cmp };

    ghost laws = { Prim.search (comparing, rules) };

    fn eq(&self, other: &RecVersion) -> bool {
        self.cmp(other) == Ordering::Equal
    }
}

impl Eq for RecVersion {
    ghost laws = { Prim.search (comparing, rules) };
}

impl PartialOrd for RecVersion {
    ghost partial_cmp = { as_partial_cmp version_cmp };

    ghost laws = { partial_order_from_own_ties (Prim.search (comparing, rules)) (Prim.search (comparing, rules)) };

    fn partial_cmp(&self, other: &RecVersion) -> Option<Ordering> {
        Some(self.cmp(other))
    }
}

impl Ord for RecVersion {
    ghost cmp = { version_cmp };

    ghost total = { Prim.search (comparing, rules) };

    ghost matches_partial_cmp = { Prim.search (comparing, rules) };

    ghost matches_eq = { Prim.search (comparing, rules) };

    fn cmp(&self, other: &RecVersion) -> Ordering {
        self.lib
            .cmp(&other.lib)
            .then(self.version.as_bytes().cmp(other.version.as_bytes()))
    }
}

impl PartialEq for Look {
    ghost eq = { eq_by_cmp full_look_cmp };

    ghost laws = { look_partial_equivalence };

    fn eq(&self, other: &Look) -> bool {
        self.cmp(other) == Ordering::Equal
    }
}

impl Eq for Look {
    ghost laws = { look_equivalence };
}

impl PartialOrd for Look {
    ghost partial_cmp = { as_partial_cmp full_look_cmp };

    ghost laws = { partial_order_from_total full_look_total };

    fn partial_cmp(&self, other: &Look) -> Option<Ordering> {
        Some(self.cmp(other))
    }
}

impl Ord for Look {
    ghost cmp = { full_look_cmp };

    ghost total = { full_look_total };

    ghost matches_partial_cmp = { Prim.search (comparing, rules) };

    ghost matches_eq = { Prim.search (comparing, rules) };

    fn cmp(&self, other: &Look) -> Ordering {
        self.lib
            .cmp(&other.lib)
            .then(self.name.as_bytes().cmp(other.name.as_bytes()))
            .then(compare_names(name_of(&self.version), name_of(&other.version)))
            .then(class_number(self.call).cmp(&class_number(other.call)))
            .then(compare_answers(&self.answer, &other.answer))
    }
}

/// Calls come first.
fn class_number(call: bool) -> u8
    ensures { result ≡ class_number call }
{
    if call { 0 } else { 1 }
}

fn name_of(name: &Option<Name>) -> Option<&Name>
    ensures { option_copied result ≡ name.now }
{
    match name {
        Some(name) => Some(name),
        None => None,
    }
}

/// None comes first.
fn compare_names(one: Option<&Name>, other: Option<&Name>) -> Ordering
    ensures { result ≡ option_cmp text_cmp (option_copied one.entry) (option_copied other.entry) }
{
    match (one, other) {
        (None, None) => Ordering::Equal,
        (None, Some(_)) => Ordering::Less,
        (Some(_), None) => Ordering::Greater,
        (Some(one), Some(other)) => one.as_bytes().cmp(other.as_bytes()),
    }
}

/// Nothing comes first, then what has no version.
fn compare_answers(one: &Answer, other: &Answer) -> Ordering
    ensures { result ≡ answer_cmp one.now other.now }
{
    match (one, other) {
        (Answer::Nothing, Answer::Nothing) | (Answer::Plain, Answer::Plain) => Ordering::Equal,
        (Answer::Nothing, _) | (Answer::Plain, Answer::Version(_)) => Ordering::Less,
        (_, Answer::Nothing) | (Answer::Version(_), Answer::Plain) => Ordering::Greater,
        (Answer::Version(one), Answer::Version(other)) => one.as_bytes().cmp(other.as_bytes()),
    }
}
