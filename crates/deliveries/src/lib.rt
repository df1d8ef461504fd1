//! What a command comes to, a text or files, and giving it: saying the text, or writing the files
//! into a folder and saying a line.
#![tactic(auto)]

mod answer;
mod delivering;
mod saying;
mod status;

pub use answer::{Answer, Whole};
pub use delivering::give;
pub use saying::{refuse, say};
pub use status::{Status, exit_number, status_name};
