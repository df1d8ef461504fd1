//! Why a command is refused, and the lines that the program prints.
#![tactic(auto)]

mod config_refusal;
mod damage;
mod differences;
mod fields;
mod file_refusal;
mod folder_refusal;
mod load_refusal;
mod name_refusal;
mod numbers;
mod refusal;
mod rewrite_refusal;
mod split_refusal;
mod tables;

pub use config_refusal::ConfigRefusal;
pub use file_refusal::FileRefusal;
pub use folder_refusal::FolderRefusal;
pub use name_refusal::NameRefusal;
pub use refusal::{Refusal, done_text, not_empty_text, refusal_text, usage_line};
pub use rewrite_refusal::RewriteRefusal;
pub use split_refusal::SplitRefusal;
