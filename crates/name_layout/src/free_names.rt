//! The first free name of a key: the key, or the first of `key-2`, `key-3` and on that is free.
//!
//! Said in `specs/Layouts.antt`.

ghost use Rattle.std.specs.Prelude.{◌≡◌, ◌<◌, ℕ, IfOk, false};
ghost use Rattle.name_layout.specs.Layouts.{IsFirstFree, candidate_name, is_free};

use crate::name_sets::NameSet;
use load_model::{Name, NoMemory};
use std::alloc::Global;

/// A free name, and which candidate of its key it is.
#[derive(Drop)]
pub struct FreeName {
    pub name: Name,
    pub number: u32,
}

/// The first free candidate of a key, of which those before `start` are not free.
pub fn first_free(
    alloc: Global,
    listed: &NameSet,
    taken: &NameSet,
    key: &[u8],
    start: u32,
) -> Result<FreeName, NoMemory>
    requires { (k : ℕ) → k < start
        → is_free listed.now taken.now (candidate_name key.now k) ≡ false }
    ensures first { IfOk result (λ free. IsFirstFree listed.now taken.now key.now free.name) }
    ensures before { IfOk result (λ free. (k : ℕ) → k < free.number
        → is_free listed.now taken.now (candidate_name key.now k) ≡ false) }
{
    for number in start..u32::MAX {
        let name = candidate_name(alloc, key, number)?;
        if is_free(listed, taken, name.as_bytes()) {
            return Ok(FreeName { name, number });
        }
    }
    // So many names are beyond all memory.
    Err(NoMemory)
}

/// Whether a name is neither taken nor on the host list.
fn is_free(listed: &NameSet, taken: &NameSet, name: &[u8]) -> bool
    ensures { result ≡ is_free listed.now taken.now name.now }
{
    !taken.contains(name) && !listed.contains(name)
}

/// The key, or for a later number the key with a number of its own.
fn candidate_name(alloc: Global, key: &[u8], number: u32) -> Result<Name, NoMemory>
    ensures { IfOk result (λ name. name ≡ candidate_name key.now number) }
{
    if number == 0 {
        return Name::from_bytes(alloc, key);
    }
    let number = u64::from(number) + 1;
    let digits = format!(in alloc; "{number}")?;
    let mut name = Vec::from_slice(alloc, key)?;
    name.extend_from_slice(b"-")?;
    name.extend_from_slice(digits.as_bytes())?;
    Name::from_bytes(alloc, name.as_slice())
}
