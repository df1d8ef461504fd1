//! Tests of generated trees, in a crate of their own, so that the crate that makes them is proved
//! once and not once more with its tests.
#![tactic(auto)]

#[cfg(test)]
mod sizes;
