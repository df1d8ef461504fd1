//! Whether two records say the same, field by field.

use host_list::{Answer, Look, RecLib, RecVersion, Record};
use load_model::Name;
use path_text::Abs;

pub fn are_same(one: &Record, other: &Record) -> bool {
    one.machine == other.machine
        && same_paths(one.interps.as_slice(), other.interps.as_slice())
        && same_libs(one.libs.as_slice(), other.libs.as_slice())
        && same_versions(one.versions.as_slice(), other.versions.as_slice())
        && same_looks(one.looks.as_slice(), other.looks.as_slice())
}

fn same_paths(some: &[Abs], others: &[Abs]) -> bool {
    some.len() == others.len()
        && some
            .iter()
            .zip(others)
            .all(|(one, other)| one.as_str() == other.as_str())
}

fn same_names(some: &[Name], others: &[Name]) -> bool {
    some.len() == others.len()
        && some
            .iter()
            .zip(others)
            .all(|(one, other)| one.as_bytes() == other.as_bytes())
}

fn same_libs(some: &[RecLib], others: &[RecLib]) -> bool {
    some.len() == others.len()
        && some.iter().zip(others).all(|(one, other)| {
            one.name.as_bytes() == other.name.as_bytes()
                && same_names(one.needs.as_slice(), other.needs.as_slice())
        })
}

fn same_versions(some: &[RecVersion], others: &[RecVersion]) -> bool {
    some.len() == others.len()
        && some.iter().zip(others).all(|(one, other)| {
            one.lib == other.lib && one.version.as_bytes() == other.version.as_bytes()
        })
}

fn same_looks(some: &[Look], others: &[Look]) -> bool {
    some.len() == others.len()
        && some
            .iter()
            .zip(others)
            .all(|(one, other)| same_look(one, other))
}

fn same_look(one: &Look, other: &Look) -> bool {
    one.lib == other.lib
        && one.name.as_bytes() == other.name.as_bytes()
        && same_version(&one.version, &other.version)
        && one.call == other.call
        && same_answer(&one.answer, &other.answer)
}

fn same_version(one: &Option<Name>, other: &Option<Name>) -> bool {
    match (one, other) {
        (Some(one), Some(other)) => one.as_bytes() == other.as_bytes(),
        (None, None) => true,
        _ => false,
    }
}

fn same_answer(one: &Answer, other: &Answer) -> bool {
    match (one, other) {
        (Answer::Version(one), Answer::Version(other)) => one.as_bytes() == other.as_bytes(),
        (Answer::Nothing, Answer::Nothing) | (Answer::Plain, Answer::Plain) => true,
        _ => false,
    }
}
