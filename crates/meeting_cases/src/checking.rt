//! What the check of a case comes to, as a line.

use crate::case::Case;
use crate::trees::{path_of, paths_of, tree_of};
use build_plan::BuildStop;
use case_rows::Fault;
use host_checks::check_host;
use load_model::Text;
use ports::MemTree;
use refusals::{Refusal, refusal_text};
use std::alloc::Global;

/// A call of a tree that is to fail: the number of its method, 0 for `probe` and 1 for `read_at`,
/// and its own number, from 1.
#[derive(Clone, Copy)]
pub struct Failing {
    pub method: u8,
    pub number: u64,
}

/// The line of a check whose read of the tree failed.
pub const READ_FAILED: &[u8] = b"read failed\n";

/// What is said of the host of a case, of whose calls one may be to fail.
pub fn line_of(alloc: Global, case: &Case<'_>, failing: Option<Failing>) -> Result<Vec<u8>, Fault> {
    let mut tree = tree_of(alloc, case)?;
    if let Some(failing) = failing {
        tree.fail_at(failing.method, failing.number)?;
    }
    let answer = checked(alloc, case, &mut tree)?;
    said_of(alloc, &answer)
}

fn checked(
    alloc: Global,
    case: &Case<'_>,
    tree: &mut MemTree,
) -> Result<Result<Text, BuildStop>, Fault> {
    let place = path_of(alloc, case.place)?;
    let dirs = paths_of(alloc, case.dirs)?;
    Ok(check_host(alloc, tree, &place, dirs.as_slice()))
}

fn said_of(alloc: Global, answer: &Result<Text, BuildStop>) -> Result<Vec<u8>, Fault> {
    match answer {
        Ok(text) => copied(alloc, text.as_bytes()),
        Err(stop) => stop_line(alloc, stop),
    }
}

fn stop_line(alloc: Global, stop: &BuildStop) -> Result<Vec<u8>, Fault> {
    match stop {
        BuildStop::Refused(refusal) => refusal_line(alloc, refusal),
        BuildStop::Read => copied(alloc, READ_FAILED),
        BuildStop::NoMemory => Err(Fault::NoMemory),
    }
}

fn refusal_line(alloc: Global, refusal: &Refusal) -> Result<Vec<u8>, Fault> {
    let line = refusal_text(alloc, refusal)?;
    copied(alloc, line.as_bytes())
}

fn copied(alloc: Global, bytes: &[u8]) -> Result<Vec<u8>, Fault> {
    Ok(Vec::from_slice(alloc, bytes)?)
}
