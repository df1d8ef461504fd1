//! The hash functions of symbol names.

ghost use Rattle.std.specs.Prelude.{◌≡◌};
ghost use Rattle.load_model.specs.Hashes.{gnu_hash, gnu_step, sysv_hash, sysv_step};

/// The hash of one byte more.
#[tactic(auto, unfolding(load_model::specs::Hashes::sysv_step))]
fn sysv_step(hash: u32, byte: u8) -> u32
    ensures { result ≡ sysv_step hash byte }
{
    let sum = hash.wrapping_mul(16).wrapping_add(u32::from(byte));
    let high = sum & 0xf000_0000;
    (sum ^ (high >> 24)) & !high
}

/// The hash of a name in the hash table.
///
/// System V gABI, Hash Table.
pub fn sysv_hash(name: &[u8]) -> u32
    ensures { result ≡ sysv_hash name.now }
{
    name.iter().fold(0, |hash, byte| sysv_step(hash, *byte))
}

/// The hash of one byte more.
#[tactic(auto, unfolding(load_model::specs::Hashes::gnu_step))]
fn gnu_step(hash: u32, byte: u8) -> u32
    ensures { result ≡ gnu_step hash byte }
{
    hash.wrapping_mul(33).wrapping_add(u32::from(byte))
}

/// The hash of a name in the GNU hash table.
pub fn gnu_hash(name: &[u8]) -> u32
    ensures { result ≡ gnu_hash name.now }
{
    name.iter().fold(5381, |hash, byte| gnu_step(hash, *byte))
}
