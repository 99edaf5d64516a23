//! Tests of the command `frames` over devices that move few bytes a call, fail or interrupt, and of `frames` and a connector's table
//! while each request for memory is refused in turn. No contract can say that memory is to be had, or what a device gives: these
//! tests do. Lines of the log have dates from outside, and a journal is tried over a device that fails. What the commands answer to their inputs and their arguments is tested by runs of the program.
#![tactic(auto)]

#[cfg(test)]
use std::process::Abort;

/// Ends the test if a fact does not hold, and says which, as `assert!` does. The prover takes a third of the time for it.
#[cfg(test)]
macro_rules! sure {
    ($rt:expr; $fact:expr) => {
        crate::sure($rt, $fact, stringify!($fact))
    };
    ($rt:expr; $fact:expr, $at:expr) => {
        crate::sure_at($rt, $fact, stringify!($fact), $at)
    };
}

#[cfg(test)]
fn sure(rt: &impl Abort, holds: bool, fact: &str) {
    assert!(rt; holds, "not so: {fact}");
}

/// The same of a step in a loop.
#[cfg(test)]
fn sure_at(rt: &impl Abort, holds: bool, fact: &str, n: u64) {
    assert!(rt; holds, "not so at {n}: {fact}");
}

#[cfg(test)]
mod devices;
#[cfg(test)]
mod examples;
#[cfg(test)]
mod frames;
#[cfg(test)]
mod log;
#[cfg(test)]
mod memory;
#[cfg(test)]
mod tables;
