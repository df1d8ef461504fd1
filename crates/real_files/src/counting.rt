//! How the outcome of a call of the system becomes the answer of an object of the outside.
//!
//! The words are those of `specs/Counting.antt`.

ghost use Rattle.std.specs.Prelude.{◌≡◌, ◌≤◌, IfOk, IsErr, OnErr};
ghost use Rattle.answers.specs.Faults.{Rose};
ghost use Rattle.real_files.specs.Counting.{CountsErrors};

use ports::Failed;
use std::io;

/// The value of an outcome, or a fault, which is counted.
pub fn counted<T: Drop>(outcome: io::Result<T>, faults: &mut u64) -> Result<T, Failed>
    ensures value { IfOk result (λ value. outcome ≡ Ok value) }
    ensures error { OnErr result (IsErr outcome) }
    ensures count { CountsErrors faults.old faults.new result }
    ensures never_falls { faults.old ≤ faults.new }
    ensures failed { OnErr result (Rose faults.old faults.new) }
{
    match outcome {
        Ok(value) => Ok(value),
        Err(_) => {
            *faults = faults.saturating_add(1);
            Err(Failed)
        }
    }
}
