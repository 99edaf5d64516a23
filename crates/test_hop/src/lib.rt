//! Tests of a hop that threads serve through links in memory, of links that fail, and of a desk while each request for memory is
//! refused in turn, until a run meets no refusal. All else of a hop is tested over the library for other languages, in
//! bind/rust/tests.
#![tactic(auto)]

#[cfg(test)]
use std::process::Abort;

/// Ends the test if a fact does not hold, and says which, as `assert!` does. The prover needs a third of the time for it.
#[cfg(test)]
macro_rules! sure {
    ($rt:expr; $fact:expr) => {
        crate::sure($rt, $fact, stringify!($fact))
    };
    ($rt:expr; $fact:expr, $at:expr) => {
        crate::sure_at($rt, $fact, stringify!($fact), $at)
    };
}

#[cfg(test)]
fn sure(rt: &impl Abort, holds: bool, fact: &str) {
    assert!(rt; holds, "not so: {fact}");
}

/// The same of a step in a loop.
#[cfg(test)]
fn sure_at(rt: &impl Abort, holds: bool, fact: &str, n: u64) {
    assert!(rt; holds, "not so at {n}: {fact}");
}

#[cfg(test)]
mod desks;
#[cfg(test)]
mod examples;
#[cfg(test)]
mod faults;
#[cfg(test)]
mod hop;
#[cfg(test)]
mod memory;
#[cfg(test)]
mod threads;
#[cfg(test)]
mod till;
