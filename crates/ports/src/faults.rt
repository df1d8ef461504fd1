/// A call failed, and the count of faults of its object rose.
#[derive(Clone, Copy, PartialEq, Eq, Debug)]
pub struct Failed;
