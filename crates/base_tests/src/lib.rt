//! Tests of the lowest crates, in a crate of their own so that those are proved once and not once
//! more with their tests.
#![tactic(auto)]

#[cfg(test)]
mod bytes;
#[cfg(test)]
mod escaping;
#[cfg(test)]
mod lists;
#[cfg(test)]
mod numbers;
#[cfg(test)]
mod offers;
#[cfg(test)]
mod paths;
#[cfg(test)]
mod searching;
