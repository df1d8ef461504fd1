//! Laws of the hash functions, each the contract of a function that does nothing.

ghost use Rattle.std.specs.Prelude.{◌≡◌, [], codes};
ghost use Rattle.load_model.specs.Hashes.{gnu_hash, sysv_hash};

/// Six values of the hash functions.
pub fn hash_values()
    ensures empty { sysv_hash [] ≡ 0 }
    ensures empty_gnu { gnu_hash [] ≡ 0x1505 }
    ensures exit { sysv_hash (codes "exit") ≡ 0x0006cf04 }
    ensures exit_gnu { gnu_hash (codes "exit") ≡ 0x7c967e3f }
    ensures puts { sysv_hash (codes "puts") ≡ 0x00077cb3 }
    ensures version { sysv_hash (codes "GLIBC_2.2.5") ≡ 0x09691a75 }
{}
