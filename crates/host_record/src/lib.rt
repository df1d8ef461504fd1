//! What a build demands of a host, as a record, and its text, `host.txt`: written, and read line by
//! line. The lines are told in `docs/FORMATS.md`; the definitions are `specs/Grammar.antt` and
//! those that it names.
#![tactic(auto)]

mod fields;
mod laws;
mod line_reading;
mod lines;
mod lookups;
mod names;
mod orders;
mod reading;
mod records;
mod taking;
mod unescaping;
mod writing;

pub use laws::{one_reading, written_is_read};
pub use reading::{RecordFault, read_record};
pub use records::{Answer, Look, RecLib, RecVersion, Record};
pub use unescaping::unescape;
pub use writing::write_record;
