//! Why a configuration is not understood: the refusals, the number and the evidence of each.
//! Definitions: `specs/ConfigRefusal.antt`.

ghost use Rattle.std.specs.Prelude.{◌≡◌, [], ◌++◌, IfOk, codes};
ghost use Rattle.refusals.specs.ConfigRefusal.{config_evidence, config_number};
ghost use Rattle.refusals.specs.Fields.{with_field, with_fields};

use crate::fields::{with_field, with_fields};
use crate::numbers::{
    BAD_NAME, BAD_PATH, CONFIG_ABSENT, MISSING_KEY, NOT_TOML, TWO_TARGETS, UNKNOWN_KEY, WRONG_KIND,
};
use load_model::{Name, Text};
use path_text::{Abs, NoMemory};
use std::alloc::Global;

/// Why there is no configuration: each with its evidence.
#[derive(Drop)]
pub enum ConfigRefusal {
    /// There is no file: its path.
    ConfigAbsent(Abs),
    /// The file is no TOML document.
    NotToml,
    /// A key is missing: the key.
    MissingKey(Name),
    /// A value is of another kind than its key demands: the key.
    WrongKind(Name),
    /// There is a key without a meaning: the key.
    UnknownKey(Name),
    /// A value is no path that can stand at its key: the key.
    BadPath(Name),
    /// A value is no file name: the name, and its key.
    BadName(Name, Name),
    /// Two files would get one place: the place.
    TwoTargets(Name),
}

/// The number of a refusal.
pub fn config_number(refusal: &ConfigRefusal) -> u8
    ensures { result ≡ config_number refusal.now }
{
    match refusal {
        ConfigRefusal::ConfigAbsent(_) => CONFIG_ABSENT,
        ConfigRefusal::NotToml => NOT_TOML,
        ConfigRefusal::MissingKey(_) => MISSING_KEY,
        ConfigRefusal::WrongKind(_) => WRONG_KIND,
        ConfigRefusal::UnknownKey(_) => UNKNOWN_KEY,
        ConfigRefusal::BadPath(_) => BAD_PATH,
        ConfigRefusal::BadName(_, _) => BAD_NAME,
        ConfigRefusal::TwoTargets(_) => TWO_TARGETS,
    }
}

/// What a refusal says.
pub fn config_evidence(alloc: Global, refusal: &ConfigRefusal) -> Result<Text, NoMemory>
    ensures { IfOk result (λ text. text ≡ config_evidence refusal.now) }
{
    match refusal {
        ConfigRefusal::ConfigAbsent(path) => {
            with_field(
                alloc,
                b"no configuration at ",
                path.as_str().as_bytes(),
                b"",
            )
        }
        ConfigRefusal::NotToml => Text::from_bytes(alloc, b"configuration is not TOML"),
        ConfigRefusal::MissingKey(key) => {
            with_field(alloc, b"configuration lacks ", key.as_bytes(), b"")
        }
        ConfigRefusal::WrongKind(key) => {
            with_field(
                alloc,
                b"configuration has the wrong kind at ",
                key.as_bytes(),
                b"",
            )
        }
        ConfigRefusal::UnknownKey(key) => {
            with_field(
                alloc,
                b"configuration has the unknown key ",
                key.as_bytes(),
                b"",
            )
        }
        ConfigRefusal::BadPath(key) => with_field(alloc, b"bad path at ", key.as_bytes(), b""),
        ConfigRefusal::BadName(name, key) => {
            with_fields(
                alloc,
                b"bad name ",
                name.as_bytes(),
                b" at ",
                key.as_bytes(),
            )
        }
        ConfigRefusal::TwoTargets(path) => {
            with_field(alloc, b"two files for ", path.as_bytes(), b"")
        }
    }
}
