//! Where references are looked up, what they bind to, and whether the versions that objects ask for
//! are there.
//!
//! System V gABI, Shared Object Dependencies; Linux Standard Base, Symbol Versioning. Scopes and
//! bindings are said in `specs/Scopes.antt` and `specs/Bindings.antt` of `load_model`, asks in its
//! `specs/VersionCheck.antt`.
#![tactic(auto)]

mod binders;
mod binding;
mod checking;
mod files;
mod lookup;
mod stops;
mod wanting;

pub use binders::Binder;
pub use binding::bind;
pub use checking::check_versions;
pub use stops::VersionStop;
