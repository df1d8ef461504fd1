//! The calls that a form in memory had, and those of them that are to fail.
//!
//! The words are those of `specs/Calls.antt`.

ghost use Rattle.std.specs.Prelude.{◌≡◌, ◌<◌, ◌≤◌, OnOk, OnErr};
ghost use Rattle.ports.specs.Calls.{after_call, faulted, no_calls, starved};
ghost use Rattle.ports.specs.Calls.{fails_at, is_to_fail, with_failing};

use crate::Failed;
use load_model::{List, NoMemory};
use std::alloc::Global;

/// The number of methods of the trait that has most.
pub const METHODS: usize = 4;

/// A call that is to fail: the number of its method in the order of the trait, from 0, and its own
/// number among the calls of this method, from 1.
#[derive(Clone, Copy, PartialEq, Eq, Debug)]
pub struct Call {
    pub method: u8,
    pub number: u64,
}

/// The calls that a form in memory had, by method, those that are to fail, the growths that memory
/// refused, and the faults so far. The counts stand still at their last value.
#[derive(Drop)]
pub struct Calls {
    failing: List<Call>,
    made: [u64; METHODS],
    refused: u64,
    faults: u64,
}

impl Calls {
    /// No calls yet, and none is to fail.
    pub fn new(alloc: Global) -> Calls
        ensures { result ≡ no_calls }
    {
        Calls {
            failing: List::new(alloc),
            made: [0; METHODS],
            refused: 0,
            faults: 0,
        }
    }

    /// Puts a call on the list of those that are to fail.
    pub fn fail_at(&mut self, method: u8, number: u64) -> Result<(), NoMemory>
        ensures ok { OnOk result (self.new ≡ with_failing self.old method number) }
        ensures err { OnErr result (self.new ≡ self.old) }
    {
        self.failing.push(Call { method, number })
    }

    /// Counts a call of the method, and says whether it is to fail. Then it is a fault too.
    pub fn strikes(&mut self, method: u8) -> bool
        requires { method < METHODS }
        ensures answer { result ≡ is_to_fail self.old method }
        ensures counted { self.new ≡ after_call self.old method }
        ensures never_falls { self.old.faults ≤ self.new.faults }
    {
        let number = self.made[method as usize].saturating_add(1);
        let fails = self.fails_at(method, number);
        self.made[method as usize] = number;
        if fails {
            self.fault();
        }
        fails
    }

    // Whether this call is on the list of those that are to fail.
    fn fails_at(&self, method: u8, number: u64) -> bool
        ensures { result ≡ fails_at self.now.failing method number }
    {
        self.failing
            .as_slice()
            .iter()
            .any(|call| call.method == method && call.number == number)
    }

    // Counts a fault.
    fn fault(&mut self)
        ensures counted { self.new ≡ faulted self.old }
        ensures never_falls { self.old.faults ≤ self.new.faults }
    {
        self.faults = self.faults.saturating_add(1);
    }

    /// Counts a growth that memory refused, which is a fault too.
    pub fn refuse(&mut self) -> Failed
        ensures counted { self.new ≡ starved self.old }
        ensures never_falls { self.old.faults ≤ self.new.faults }
    {
        self.refused = self.refused.saturating_add(1);
        self.fault();
        Failed
    }

    /// How many growths memory refused.
    pub fn refused(&self) -> u64
        ensures { result ≡ self.now.refused }
    {
        self.refused
    }
}
