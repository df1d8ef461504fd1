//! What an AppDir is made of: programs, tools, data files, and the libraries that hosts have.
#![tactic(auto)]

mod config;
mod names;
mod settings;

pub use config::{Config, Data, Program, quick_config};
pub use names::{default_names, names_or_default};
pub use settings::{default_dirs, default_setting, setting_of};
