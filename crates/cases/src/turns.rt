//! Cases of which each call fails in turn.

use crate::case::{Case, Failing, Method};
use crate::outside::{call, let_fail, outside_of};
use crate::wants::{Ending, are_first_wanted, is_as_wanted, is_root};
use appdir_cli::Status;
use case_rows::Fault;
use std::alloc::Global;

/// How many calls of one method are tried.
const MOST_CALLS: u64 = 10_000;

/// What the calls of a method come to that fail in turn.
#[derive(Clone, Copy, PartialEq, Eq, Debug)]
pub enum Turns {
    /// So many calls failed, each as it may, and no more are made.
    Failed(u64),
    /// The call of this number failed otherwise than it may.
    Otherwise(u64),
}

/// How a case ends, with one more call that is to fail.
pub fn ending_of(
    alloc: Global,
    case: &Case<'_>,
    failing: Option<Failing>,
) -> Result<Ending, Fault> {
    let mut outside = outside_of(alloc, case)?;
    if let Some(failing) = failing {
        let_fail(&mut outside, case, &failing)?;
    }
    let status = call(alloc, case.words, &mut outside)?;
    Ok(Ending { status, outside })
}

/// Lets each call of a method fail in turn, until there is no such call and the case ends as it
/// wants to.
pub fn turns_of(alloc: Global, case: &Case<'_>, method: Method) -> Result<Turns, Fault> {
    for number in 1..MOST_CALLS {
        let failing = Failing { method, number };
        let ending = ending_of(alloc, case, Some(failing))?;
        if is_as_wanted(alloc, case, &ending)? {
            return Ok(Turns::Failed(number.saturating_sub(1)));
        }
        if !is_cut_off(alloc, case, failing, &ending)? {
            return Ok(Turns::Otherwise(number));
        }
    }
    Ok(Turns::Otherwise(MOST_CALLS))
}

/// The status that goes with a failing call.
fn status_of(method: Method) -> Status {
    match method {
        Method::Probe | Method::ReadAt => Status::ReadFailed,
        Method::Root | Method::Begin | Method::Append | Method::Finish => Status::WriteFailed,
        Method::Put => Status::PrintFailed,
    }
}

/// Whether a failing call ends a case as it may: with the status of its object, nothing printed,
/// and with the root and the files that there are at such a call.
fn is_cut_off(
    alloc: Global,
    case: &Case<'_>,
    failing: Failing,
    ending: &Ending,
) -> Result<bool, Fault> {
    let is_silent = ending.outside.sink.bytes().is_empty();
    let is_ended = ending.status == status_of(failing.method) && is_silent;
    let is_place = match failing.method {
        Method::Probe | Method::Root => is_before_root(case, ending),
        Method::ReadAt => is_before_root(case, ending) || is_amid_files(case, ending),
        Method::Append => is_amid_files(case, ending),
        Method::Begin | Method::Finish => {
            is_amid_files(case, ending) && is_behind(case, ending, failing.number)
        }
        Method::Put => is_behind_files(case, ending),
    };
    Ok(is_ended && is_place && are_first_wanted(alloc, case, ending.finished())?)
}

/// Whether no root was opened, and no file was finished. What is loaded and what is rewritten is
/// read by then.
fn is_before_root(case: &Case<'_>, ending: &Ending) -> bool {
    is_root(ending.roots(case), None) && ending.finished().len() == case.finished.len()
}

/// Whether the wanted root was opened, and not all files were finished, so that the last of them,
/// the program, was not. What is copied is read then.
fn is_amid_files(case: &Case<'_>, ending: &Ending) -> bool {
    is_root(ending.roots(case), case.wants.root)
        && ending.finished().len() < case.wants.finished.len()
}

/// Whether the files before that of this number, from 1, were finished, and no others. Each is begun
/// and finished once.
fn is_behind(case: &Case<'_>, ending: &Ending, number: u64) -> bool {
    ending.finished().len() as u64
        == number
            .saturating_sub(1)
            .saturating_add(case.finished.len() as u64)
}

/// Whether the wanted root was opened, and all files were finished.
fn is_behind_files(case: &Case<'_>, ending: &Ending) -> bool {
    is_root(ending.roots(case), case.wants.root)
        && ending.finished().len() == case.wants.finished.len()
}
