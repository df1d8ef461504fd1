//! The command line of the AppDir builder: words in, an answer and an AppDir out.
#![tactic(auto)]

mod generating;
mod hosting;
mod obeying;
mod packing;
mod showing;
mod top;

pub use command_words::{Build, Command, Gen, Host, Quick, Show};
pub use deliveries::{Answer, Status, Whole, exit_number, status_name};
pub use refusals::Refusal;
pub use top::appdir_main;
