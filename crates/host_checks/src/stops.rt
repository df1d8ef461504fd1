//! Why there is no record.

use path_text::Abs;

/// Why there is no record: no file lies at its path, a line is the first that is refused, a read of
/// the tree failed, or memory was refused.
#[derive(Drop)]
pub enum RecordStop {
    Absent(Abs),
    Line(u32),
    Read,
    NoMemory,
}
