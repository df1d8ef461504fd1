ghost use Rattle.std.specs.Prelude.{◌≡◌, [], OnOk, OnErr, IfOk, IsErr, IsTrue};
ghost use Rattle.ports.specs.Calls.{is_to_fail, with_failing};
ghost use Rattle.ports.specs.InMemory.{after_err, after_ok, uncalled, view_of};
ghost use Rattle.ports.specs.View.{HasCause, with_line};

use crate::calls::Calls;
use crate::{Failed, Sink};
use load_model::NoMemory;
use std::alloc::Global;
use std::marker::Model;

// the number of the method `put`
const PUT: u8 = 0;

/// A sink in memory, which tells the bytes that it took. Of its calls those fail that are to, and
/// those for which memory was refused; a failing call takes nothing.
#[derive(Drop)]
pub struct MemSink {
    bytes: Vec<u8>,
    calls: Calls,
}

impl Model for MemSink {
    ghost use Rattle.std.specs.Prelude.{ℕ, List};
    ghost use Rattle.ports.specs.InMemory.{InMemory};

    ghost Value = { InMemory (List ℕ) };

    ghost view = { λ sink. record { held = sink.bytes.items; calls = sink.calls } };
}

impl MemSink {
    /// A sink that took nothing yet, and of which no call is to fail.
    pub fn new(alloc: Global) -> Result<MemSink, NoMemory>
        ensures { IfOk result (λ sink. sink ≡ uncalled []) }
    {
        Ok(MemSink {
            bytes: Vec::new(alloc),
            calls: Calls::new(alloc),
        })
    }

    /// Puts the number of a call, from 1, on the list of those that are to fail. `put` is method 0.
    pub fn fail_at(&mut self, method: u8, call: u64) -> Result<(), NoMemory>
        ensures ok { OnOk result (self.new.calls ≡ with_failing self.old.calls method call) }
        ensures err { OnErr result (self.new.calls ≡ self.old.calls) }
        ensures stays { self.new.held ≡ self.old.held }
    {
        self.calls.fail_at(method, call)
    }

    /// The bytes taken.
    pub fn bytes(&self) -> &[u8]
        ensures { result.now ≡ self.now.held }
    {
        self.bytes.as_slice()
    }

    /// How many growths memory refused to the sink.
    pub fn refused(&self) -> u64
        ensures { result ≡ self.now.calls.refused }
    {
        self.calls.refused()
    }
}

impl Sink for MemSink {
    ghost use Rattle.ports.specs.InMemory.{view_of};

    ghost seen = { view_of };

    fn put(&mut self, bytes: &[u8]) -> Result<(), Failed>
        ensures listed { IsTrue (is_to_fail self.old.calls PUT) → IsErr result }
        ensures ok { OnOk result (self.new ≡ after_ok (with_line bytes.now) PUT self.old) }
        ensures err { OnErr result (self.new ≡ after_err PUT self.old) }
        ensures cause { HasCause (view_of self.old) (view_of self.new) result }
    {
        if self.calls.strikes(PUT) {
            return Err(Failed);
        }
        match self.bytes.extend_from_slice(bytes) {
            Ok(()) => Ok(()),
            Err(_) => Err(self.calls.refuse()),
        }
    }
}
