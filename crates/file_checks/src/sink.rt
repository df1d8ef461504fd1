//! What a sink answers.

use crate::step::{Step, ended, faulty, said};
use ports::Sink;
use real_files::RealSink;
use std::alloc::Global;
use std::io;

pub fn answer<R: Print + Drop>(
    alloc: Global,
    sink: &mut RealSink<R>,
    step: Step<'_>,
) -> io::Result<String> {
    match step.verb {
        "put" => said(alloc, ended(sink.put(step.name.as_bytes()))),
        "put-end-of-line" => said(alloc, ended(sink.put(b"\n"))),
        "faults" => Ok(format!(in alloc; "{}", sink.faults())?),
        _ => Err(faulty()),
    }
}
