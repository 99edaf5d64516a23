//! A sender over links of which one fails.

use crate::sides::{Terms, with_money};
use crate::transfers::{Kept, Place, listen, pattern, transfer};
use crate::wires::{Seen, Wires};
use std::alloc::Global;
use std::net::{Net, TcpListener, TcpStream};
use std::process::Abort;
use std::sync::Wait;
use std::thread::Threads;
use std::time::Clock;

/// A transfer of these bytes and 500 units by links of which the first fails at its call `k`.
fn transfer_over<
    'a,
    R: Net<Listener = TcpListener, Stream = TcpStream> + Abort + Threads + Wait + Clock + Sync,
>(rt: &'a R, alloc: Global, bytes: &[u8], seen: &'a Seen, k: u64) -> Kept {
    let Place { listener, host } = listen(rt, alloc);
    let terms = Terms {
        receive_max: 1_000,
        ..with_money(500, 1)
    };
    let links = Wires {
        rt,
        seen,
        brings: None,
        k,
    };
    transfer(&links, alloc, listener, host.as_str(), &[], bytes, terms)
}

/// Whether all of these bytes arrived, and both sides reported so.
fn is_whole(came: &Kept, bytes: &[u8]) -> bool {
    let n = bytes.len() as u64;
    came.told == Ok(n) && came.sent == Ok(n) && came.bytes.as_slice() == bytes
}

/// The write of a request fails, or the read of its answer: that exchange is lost, and what it carried is sent again. The
/// first exchange cannot carry all bytes.
#[test]
fn each_call_of_a_link_fails_in_turn(rt: HostRuntime) {
    let bytes = pattern(&rt, rt.alloc(), 40_000);
    for k in 1..=2u64 {
        let seen = Seen::at(0);
        let came = transfer_over(&rt, rt.alloc(), &bytes, &seen, k);
        assert!(rt;
            came.told == Ok(40_000) && came.sent == Ok(40_000),
            "at {k}"
        );
        assert!(rt; came.bytes.as_slice() == bytes.as_slice(), "at {k}");
        assert!(rt; seen.failed() == 1, "at {k}");
    }
}
