//! A Prepare as bytes.

use st_ilp::{IlpError, Prepare, write_prepare};
use std::alloc::Allocator;

/// The bytes of a Prepare of five units that expires on 2 January 2024 at 03:04:05.006.
fn offer<A: Allocator>(alloc: A, payload: &[u8]) -> Result<Vec<u8, A>, IlpError> {
    let prepare = Prepare {
        amount: 5,
        expiry: 1_704_164_645_006,
        condition: [0; 32],
        destination: "example.b",
        payload,
    };
    write_prepare(alloc, &prepare)
}

/// Whether bytes are a Prepare of five units with this data.
fn is_read(bytes: &[u8], payload: &[u8]) -> bool {
    match st_ilp::read_prepare(bytes) {
        Ok(prepare) => prepare.amount == 5 && prepare.payload == payload,
        Err(_) => false,
    }
}

#[test]
fn a_prepare_is_written_and_read(rt: HostRuntime) {
    let bytes = offer(rt.alloc(), b"hi").expect(&rt, "there is memory");
    sure!(&rt; bytes.len() == 72);
    sure!(&rt; is_read(&bytes, b"hi"));
}
