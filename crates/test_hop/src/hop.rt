//! The hop of the examples: `example.c`, with account 0 for `example`, and account 1 for `example.b`.

use st_hop::{Account, HopError, HopState, Route, Ticket, Verdict};
use st_ilp::Moment;
use st_links::Outcome;
use std::alloc::Allocator;
use std::process::Abort;

/// A Prepare of 5 to `example.b`, which expires at 2024-01-02 03:04:05.006; its condition is SHA-256 of 32 zero bytes.
pub(crate) const PREPARE: &[u8; 70] = b"\x0c\x44\0\0\0\0\0\0\0\x0520240102030405006\
\x66\x68\x7a\xad\xf8\x62\xbd\x77\x6c\x8f\xc1\x8b\x8e\x9f\x8e\x20\
\x08\x97\x14\x85\x6e\xe2\x33\xb3\x90\x2a\x59\x1d\x0d\x5f\x29\x25\x09example.b\0";

/// The Fulfill of 32 zero bytes, without data.
pub(crate) const FULFILL: &[u8; 35] =
    b"\x0d\x21\0\0\0\0\0\0\0\0\0\0\0\0\0\0\0\0\0\0\0\0\0\0\0\0\0\0\0\0\0\0\0\0\0";

pub(crate) fn moment(rt: &impl Abort, ms: i64) -> Moment {
    Moment::new(ms).expect(rt, "a moment")
}

/// A hop with nothing owed; each account may owe 100 and send 1,000 in a packet.
pub(crate) fn new_hop<A: Allocator + Copy>(alloc: A) -> Result<HopState<A>, HopError> {
    let account = Account {
        limit: 100,
        max_packet: 1000,
    };
    let routes = [
        Route::one_to_one("example", 0),
        Route::one_to_one("example.b", 1),
    ];
    HopState::new(alloc, "example.c", &[account, account], &routes)
}

/// Claims, dues and the reserved amount of account 0, then of account 1.
pub(crate) fn counts<A: Allocator + Copy>(hop: &HopState<A>) -> [Result<u64, HopError>; 6] {
    [
        hop.claims(0),
        hop.dues(0),
        hop.held(0),
        hop.claims(1),
        hop.dues(1),
        hop.held(1),
    ]
}

/// The ticket of the Prepare, which arrived from account 0 and is forwarded.
pub(crate) fn ticket_of<A: Allocator + Copy>(rt: &impl Abort, hop: &mut HopState<A>) -> Ticket {
    match hop
        .arrive(0, PREPARE, moment(rt, 0))
        .expect(rt, "it arrives")
    {
        Verdict::Forward {
            ticket,
            account: _,
            bytes: _,
        } => ticket,
        Verdict::Answer(_) => panic!(rt; "the Prepare was answered"),
    }
}

/// The outcome of an answer with these bytes.
pub(crate) fn with_answer<A: Allocator + Copy>(
    rt: &impl Abort,
    alloc: A,
    bytes: &[u8],
) -> Outcome<A> {
    Outcome::Answered(bytes.to_vec(alloc).expect(rt, "memory"))
}
