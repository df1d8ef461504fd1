//! Printing a text or the line of a refusal. Definitions: `specs/Saying.antt`.

ghost use Rattle.std.specs.Prelude.{◌≤◌};
ghost use Rattle.deliveries.specs.Saying.{IsRefusal, IsSaid};

use crate::status::Status;
use ports::Sink;
use refusals::{Refusal, refusal_text};
use std::alloc::Global;

/// Prints the line of a refusal.
pub fn refuse<S: Sink>(alloc: Global, refusal: &Refusal, sink: &mut S) -> Status
    ensures said { IsRefusal refusal.now (S.seen sink.old) (S.seen sink.new) result }
    ensures never_falls { (S.seen sink.old).faults ≤ (S.seen sink.new).faults }
{
    match refusal_text(alloc, refusal) {
        Ok(line) => say(sink, line.as_bytes(), Status::Refused),
        Err(_) => Status::NoMemory,
    }
}

/// Prints a text whole, and gives the status that goes with it.
pub fn say<S: Sink>(sink: &mut S, text: &[u8], status: Status) -> Status
    ensures said { IsSaid text.now status (S.seen sink.old) (S.seen sink.new) result }
    ensures never_falls { (S.seen sink.old).faults ≤ (S.seen sink.new).faults }
{
    match sink.put(text) {
        Ok(()) => status,
        Err(_) => Status::PrintFailed,
    }
}
