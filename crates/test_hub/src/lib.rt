//! Tests of hubs: what is written is read at another hub, two writers of a stream, shares of the credit, workers in threads, and
//! memory that is refused.
#![tactic(auto)]

#[cfg(test)]
use std::process::Abort;

/// Ends the test if a fact does not hold, and says which, as `assert!` does. The prover takes a third of the time for it.
#[cfg(test)]
macro_rules! sure {
    ($rt:expr; $fact:expr) => {
        crate::sure($rt, $fact, stringify!($fact))
    };
    ($rt:expr; $fact:expr, $at:expr) => {
        crate::sure_at($rt, $fact, stringify!($fact), $at)
    };
}

#[cfg(test)]
fn sure(rt: &impl Abort, holds: bool, fact: &str) {
    assert!(rt; holds, "not so: {fact}");
}

/// The same of a step in a loop.
#[cfg(test)]
fn sure_at(rt: &impl Abort, holds: bool, fact: &str, n: u64) {
    assert!(rt; holds, "not so at {n}: {fact}");
}

#[cfg(test)]
mod ends;
#[cfg(test)]
mod examples;
#[cfg(test)]
mod faults;
#[cfg(test)]
mod gates;
#[cfg(test)]
mod hubs;
#[cfg(test)]
mod limits;
#[cfg(test)]
mod links;
#[cfg(test)]
mod memory;
#[cfg(test)]
mod moments;
#[cfg(test)]
mod moved;
#[cfg(test)]
mod opened;
#[cfg(test)]
mod readings;
#[cfg(test)]
mod stops;
#[cfg(test)]
mod streams;
#[cfg(test)]
mod threads;
#[cfg(test)]
mod wakes;
#[cfg(test)]
mod watched;
#[cfg(test)]
mod writers;
