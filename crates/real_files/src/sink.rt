//! The standard output, written piece by piece.

ghost use Rattle.std.specs.Prelude.{◌≡◌, ◌≤◌};

use crate::counting::counted;
use ports::{Failed, Sink};
use std::io;
use std::io::Write;

/// The standard output.
///
/// It tells nothing but its count of faults, to which each error adds one.
#[derive(Drop)]
pub struct RealSink<R: Print + Drop> {
    rt: R,
    faults: u64,
}

impl<R: Print + Drop> RealSink<R> {
    pub fn new(rt: R) -> RealSink<R>
        ensures { result.faults ≡ 0 }
    {
        RealSink { rt, faults: 0 }
    }

    /// How many errors there were. The count stands still at its last value.
    pub fn faults(&self) -> u64
        ensures { result ≡ self.now.faults }
    {
        self.faults
    }

    /// Writes the whole piece, and hands it to the system before it returns.
    fn write(&self, bytes: &[u8]) -> io::Result<()> {
        let mut output = io::writer(&self.rt);
        output.write_all(bytes)?;
        output.flush()
    }
}

impl<R: Print + Drop> Sink for RealSink<R> {
    ghost use Rattle.real_files.specs.Counting.{CountsErrors, counts};

    ghost seen = { λ sink. counts sink.faults };

    fn put(&mut self, bytes: &[u8]) -> Result<(), Failed>
        ensures count { CountsErrors self.old.faults self.new.faults result }
        ensures never_falls { self.old.faults ≤ self.new.faults }
    {
        let outcome = self.write(bytes);
        counted(outcome, &mut self.faults)
    }
}
