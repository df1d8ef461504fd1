//! Why the versions that objects ask for are not there.

/// The first ask that is not met: the object that asks, and the place of the ask among its asks.
#[derive(Clone, Copy, PartialEq, Eq, Debug)]
pub enum VersionStop {
    /// Its file is not loaded.
    VersionFileUnloaded { obj: u32, ask: u32 },
    /// Its file has version definitions, and lacks this one.
    UnsatisfiedVersion { obj: u32, ask: u32 },
}
