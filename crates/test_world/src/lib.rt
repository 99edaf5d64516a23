//! Tests of a world: worked schedules read by their traces, each of their requests for memory refused in turn; lossless runs, and runs with losses; the
//! command `local` over devices that fail and while memory is refused; and the example of two ends. What `local` writes is
//! tested by runs of the program, and ends over hops by a seed in bind/rust/tests.
#![tactic(auto)]

#[cfg(test)]
use std::process::Abort;

/// Ends the test if a fact does not hold, and prints which, as `assert!` does. The prover takes a third of the time for it.
#[cfg(test)]
macro_rules! sure {
    ($rt:expr; $fact:expr) => {
        crate::sure($rt, $fact, stringify!($fact))
    };
    ($rt:expr; $fact:expr, $at:expr) => {
        crate::sure_at($rt, $fact, stringify!($fact), $at)
    };
}

#[cfg(test)]
fn sure(rt: &impl Abort, holds: bool, fact: &str) {
    assert!(rt; holds, "not so: {fact}");
}

/// The same of a step in a loop.
#[cfg(test)]
fn sure_at(rt: &impl Abort, holds: bool, fact: &str, n: u64) {
    assert!(rt; holds, "not so at {n}: {fact}");
}

#[cfg(test)]
mod both_ends;
#[cfg(test)]
mod devices;
#[cfg(test)]
mod examples;
#[cfg(test)]
mod local;
#[cfg(test)]
mod local_memory;
#[cfg(test)]
mod losses;
#[cfg(test)]
mod lossy;
#[cfg(test)]
mod memory;
#[cfg(test)]
mod player;
#[cfg(test)]
mod quiet;
#[cfg(test)]
mod rows;
#[cfg(test)]
mod worked;
