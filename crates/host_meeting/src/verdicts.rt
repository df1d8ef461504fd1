//! What is answered of a host.

use host_list::Difference;

/// Whether a host meets a record, or the first demand that it does not meet.
#[derive(Drop)]
pub enum Verdict {
    Meets,
    Fails(Difference),
}

/// Why nothing is answered of a host.
#[derive(Clone, Copy, PartialEq, Eq, Debug)]
pub enum HostStop {
    /// A read of a file failed.
    Read,
    NoMemory,
}
