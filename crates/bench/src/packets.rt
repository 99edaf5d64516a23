//! Addresses, Prepares and the Fulfill.

use st_ilp::{Answer, Prepare, write_answer, write_prepare};
use std::alloc::Global;

/// SHA-256 of 32 zero bytes.
const CONDITION: [u8; 32] = *b"\x66\x68\x7a\xad\xf8\x62\xbd\x77\x6c\x8f\xc1\x8b\x8e\x9f\x8e\x20\
\x08\x97\x14\x85\x6e\xe2\x33\xb3\x90\x2a\x59\x1d\x0d\x5f\x29\x25";

/// The expiry of each Prepare, in milliseconds since 1970.
const EXPIRY: i64 = 30_000;

/// An address of 1,023 characters: 512 segments, each with this one character.
pub(crate) fn long_address(alloc: Global, segment: &str) -> Option<String> {
    let mut address = String::new(alloc);
    for _ in 0..511 {
        address.push_str(segment).ok()?;
        address.push_str(".").ok()?;
    }
    address.push_str(segment).ok()?;
    Some(address)
}

/// The prefix of each account's route, in the order of the accounts.
pub(crate) fn prefixes(alloc: Global, accounts: u64) -> Option<Vec<String>> {
    let mut all = Vec::new(alloc);
    for number in 0..accounts {
        let prefix = format!(in alloc; "test.{number}").ok()?;
        all.push(prefix).ok()?;
    }
    Some(all)
}

/// A Prepare of one unit, without data.
fn prepare_to(alloc: Global, destination: &str) -> Option<Vec<u8>> {
    let prepare = Prepare {
        amount: 1,
        expiry: EXPIRY,
        condition: CONDITION,
        destination,
        payload: &[],
    };
    write_prepare(alloc, &prepare).ok()
}

/// For each account the Prepare that it sends: to an address within the prefix of the next account, the last one's to the first.
pub(crate) fn prepares(alloc: Global, accounts: u64) -> Option<Vec<Vec<u8>>> {
    let mut all = Vec::new(alloc);
    for number in 0..accounts {
        let next = (number + 1) % accounts;
        let destination = format!(in alloc; "test.{next}.a").ok()?;
        all.push(prepare_to(alloc, &destination)?).ok()?;
    }
    Some(all)
}

/// The one Prepare for an address of 1,023 characters that belongs to no account.
pub(crate) fn prepares_nowhere(alloc: Global) -> Option<Vec<Vec<u8>>> {
    let destination = long_address(alloc, "b")?;
    let mut all = Vec::new(alloc);
    all.push(prepare_to(alloc, &destination)?).ok()?;
    Some(all)
}

/// The Fulfill of each Prepare, without data.
pub(crate) fn fulfill(alloc: Global) -> Option<Vec<u8>> {
    let fulfill = Answer::Fulfill {
        fulfillment: [0; 32],
        payload: &[],
    };
    write_answer(alloc, &fulfill).ok()
}
