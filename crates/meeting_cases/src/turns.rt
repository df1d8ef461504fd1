//! Checks of which each call of the tree fails in turn.

use crate::case::Case;
use crate::checking::{Failing, READ_FAILED, line_of};
use case_rows::Fault;
use std::alloc::Global;

/// Which call fails otherwise than it may, where the calls of a case are counted: each of these
/// ends the check with a read that failed, and there are no more.
pub fn first_otherwise(alloc: Global, case: &Case<'_>) -> Result<Option<Vec<u8>>, Fault> {
    let Some(counts) = case.counts else {
        return Ok(None);
    };
    match otherwise(alloc, case, 0, counts.probes)? {
        None => otherwise(alloc, case, 1, counts.reads),
        found => Ok(found),
    }
}

/// Which call of a method fails otherwise, where so many are to be made.
fn otherwise(
    alloc: Global,
    case: &Case<'_>,
    method: u8,
    count: u64,
) -> Result<Option<Vec<u8>>, Fault> {
    for number in 0..count {
        let number = number.saturating_add(1);
        if !fails(alloc, case, Failing { method, number })? {
            return Ok(Some(call_line(alloc, method, number)?));
        }
    }
    let number = count.saturating_add(1);
    if fails(alloc, case, Failing { method, number })? {
        return Ok(Some(call_line(alloc, method, number)?));
    }
    Ok(None)
}

/// Whether the check ends with a read that failed where this call fails.
fn fails(alloc: Global, case: &Case<'_>, failing: Failing) -> Result<bool, Fault> {
    let line = line_of(alloc, case, Some(failing))?;
    Ok(line.as_slice() == READ_FAILED)
}

fn call_line(alloc: Global, method: u8, number: u64) -> Result<Vec<u8>, Fault> {
    let line = format!(in alloc; "call {number} of method {method}\n")?;
    Ok(Vec::from_slice(alloc, line.as_bytes())?)
}
