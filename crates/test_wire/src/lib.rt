//! Tests of what holds, moves and seals bytes: fields, a stream's bytes on either side, the rings and the gauge, `send_all`,
//! `store_all` and HTTP over devices that move few bytes a call, fail or interrupt, the cipher, the hash of eight texts, keys and sealed
//! packets by the standards' vectors; and requests for memory refused in turn. No contract can say that the allowed calls or memory
//! suffice, or how many bytes there are before a fault: these tests do. Packets, keys and readings of HTTP are tested too in
//! bind/rust/tests.
#![tactic(auto)]

#[cfg(test)]
use std::process::Abort;

/// Ends the test if a fact does not hold, and says which, as `assert!` does. The prover needs a third of the time for it.
#[cfg(test)]
macro_rules! sure {
    ($rt:expr; $fact:expr) => {
        crate::sure($rt, $fact, stringify!($fact))
    };
    ($rt:expr; $fact:expr, $at:expr) => {
        crate::sure_at($rt, $fact, stringify!($fact), $at)
    };
}

#[cfg(test)]
fn sure(rt: &impl Abort, holds: bool, fact: &str) {
    assert!(rt; holds, "not so: {fact}");
}

/// The same of a step in a loop.
#[cfg(test)]
fn sure_at(rt: &impl Abort, holds: bool, fact: &str, n: u64) {
    assert!(rt; holds, "not so at {n}: {fact}");
}

#[cfg(test)]
mod cipher;
#[cfg(test)]
mod devices;
#[cfg(test)]
mod examples;
#[cfg(test)]
mod fields;
#[cfg(test)]
mod held;
#[cfg(test)]
mod http;
#[cfg(test)]
mod inbox;
#[cfg(test)]
mod keys;
#[cfg(test)]
mod lanes;
#[cfg(test)]
mod memory;
#[cfg(test)]
mod moves;
#[cfg(test)]
mod packets;
#[cfg(test)]
mod rings;
#[cfg(test)]
mod sealing;
#[cfg(test)]
mod unacked;
