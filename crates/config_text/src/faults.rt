//! Why a text is no configuration. Definitions: `specs/Faults.antt`.

ghost use Rattle.std.specs.Prelude.{Some};
ghost use Rattle.answers.specs.Answers.{Names};
ghost use Rattle.config_text.specs.Faults.{said_of_config};
ghost use Rattle.config_text.specs.declared.faults.ConfigFault.TheVariants.{BadName, BadPath, MissingKey, TwoTargets, UnknownKey, WrongKind};

use load_model::{Name, NoMemory};
use std::alloc::{AllocError, Global};

/// Why a text is no configuration. Faults name the key at which they come, as `opens.0` or
/// `tools.2.name`; elements of lists are counted from 0.
#[derive(Drop)]
pub enum ConfigFault {
    /// The text is no TOML document, or not UTF-8.
    NotToml,
    /// The table may not have this key.
    UnknownKey(Name),
    /// The table lacks this key.
    MissingKey(Name),
    /// The value of this key is of another kind.
    WrongKind(Name),
    /// The text at this key is no such path.
    BadPath(Name),
    /// The text at this key is no name of a file.
    BadName { key: Name, text: Name },
    /// Two tools or data files would lie at this place.
    TwoTargets(Name),
    NoMemory,
}

impl From<NoMemory> for ConfigFault {
    ghost use Rattle.std.specs.Prelude.{◌≡◌};
    ghost use Rattle.config_text.specs.declared.faults.ConfigFault.{ConfigFault};
    ghost use Rattle.config_text.specs.declared.faults.ConfigFault.TheVariants.{NoMemory as Exhausted};

    ghost from_gives = { λ _ fault. fault ≡ Exhausted };

    fn from(_error: NoMemory) -> Self {
        ConfigFault::NoMemory
    }
}

pub(crate) fn missing_key(alloc: Global, key: &str) -> ConfigFault
    ensures { Names (said_of_config result) (Some (MissingKey key.now)) }
{
    match Name::from_bytes(alloc, key.as_bytes()) {
        Ok(key) => ConfigFault::MissingKey(key),
        Err(_) => ConfigFault::NoMemory,
    }
}

pub(crate) fn wrong_kind(alloc: Global, key: &str) -> ConfigFault
    ensures { Names (said_of_config result) (Some (WrongKind key.now)) }
{
    match Name::from_bytes(alloc, key.as_bytes()) {
        Ok(key) => ConfigFault::WrongKind(key),
        Err(_) => ConfigFault::NoMemory,
    }
}

pub(crate) fn unknown_key(alloc: Global, key: &str) -> ConfigFault
    ensures { Names (said_of_config result) (Some (UnknownKey key.now)) }
{
    match Name::from_bytes(alloc, key.as_bytes()) {
        Ok(key) => ConfigFault::UnknownKey(key),
        Err(_) => ConfigFault::NoMemory,
    }
}

pub(crate) fn bad_path(alloc: Global, key: &str) -> ConfigFault
    ensures { Names (said_of_config result) (Some (BadPath key.now)) }
{
    match Name::from_bytes(alloc, key.as_bytes()) {
        Ok(key) => ConfigFault::BadPath(key),
        Err(_) => ConfigFault::NoMemory,
    }
}

pub(crate) fn bad_name(alloc: Global, key: &str, text: &[u8]) -> ConfigFault
    ensures { Names (said_of_config result) (Some (BadName key.now text.now)) }
{
    let Ok(key) = Name::from_bytes(alloc, key.as_bytes()) else {
        return ConfigFault::NoMemory;
    };
    match Name::from_bytes(alloc, text) {
        Ok(text) => ConfigFault::BadName { key, text },
        Err(_) => ConfigFault::NoMemory,
    }
}

pub(crate) fn two_targets(alloc: Global, target: &[u8]) -> ConfigFault
    ensures { Names (said_of_config result) (Some (TwoTargets target.now)) }
{
    match Name::from_bytes(alloc, target) {
        Ok(target) => ConfigFault::TwoTargets(target),
        Err(_) => ConfigFault::NoMemory,
    }
}
