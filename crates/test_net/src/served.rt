//! A connector in a network in memory, of which one connection fails.

use crate::books::{FULFILL, PREPARE};
use crate::sides::{Crossing, connect_telling, usual};
use crate::wires::{Door, Seen, Wires};
use ilpstream_connector::NoMinutes;
use ilpstream_serving::TransferError;
use st_hop_desk::{NoBooks, Owed, Till};
use std::alloc::Global;
use std::net::{Net, TcpListener, TcpStream};
use std::process::Abort;
use std::sync::Wait;
use std::thread::Threads;
use std::time::Clock;

/// The head of a request with 67 bytes: 68 bytes.
const POST: &[u8] = b"POST /ilp HTTP/1.1\r\nAuthorization: Bearer t0\r\nContent-Length: 67\r\n\r\n";

/// The head of a response with 35 bytes.
const OK: &[u8] = b"HTTP/1.1 200 OK\r\nContent-Length: 35\r\n\r\n";

/// What is owed if this number of units was booked.
fn booked(units: u64) -> Owed {
    Owed {
        claims: units,
        dues: units,
    }
}

/// A head and its body.
fn message(rt: &impl Abort, alloc: Global, head: &[u8], body: &[u8]) -> Vec<u8> {
    let mut message = Vec::from_slice(alloc, head).expect(rt, "there is memory");
    assert!(rt; message.extend_from_slice(body).is_ok());
    message
}

/// The result of a connector of two requests and one worker whose connections bring this request. The call `k` of the
/// first connection fails. Its neighbour gives this response to all.
fn serve_two<R: Net<Listener = TcpListener, Stream = TcpStream> + Threads + Wait + Clock + Sync>(
    rt: &R,
    alloc: Global,
    request: &[u8],
    response: &[u8],
    seen: &Seen,
    k: u64,
) -> Result<Owed, TransferError> {
    let made = Seen::at(0);
    let net = Wires {
        rt,
        seen: &made,
        brings: Some(response),
        k: 0,
    };
    let door = Door {
        seen,
        brings: Some(request),
        k,
    };
    let twice = Crossing {
        workers: 1,
        requests: 2,
        ..usual()
    };
    let till = None::<&Till<NoBooks, Global>>;
    let next = "127.0.0.1:1";
    connect_telling(&net, alloc, door, next, twice, till, &mut NoMinutes)?.result
}

/// Each call of a connection fails in turn: its request arrives in three reads, its answer of 133 bytes is sent by three
/// writes. That connection counts as the next one does. If no request arrived, one Prepare of ten units is booked,
/// and otherwise two.
#[test]
fn each_call_of_a_served_connection_fails_in_turn(rt: HostRuntime) {
    let alloc = rt.alloc();
    let request = message(&rt, alloc, POST, PREPARE);
    let response = message(&rt, alloc, OK, FULFILL);
    for (k, units, written, failed) in [
        (1, 10, 133, 1),
        (2, 10, 133, 1),
        (3, 10, 133, 1),
        (4, 20, 133, 1),
        (5, 20, 197, 1),
        (6, 20, 261, 1),
        (7, 20, 266, 0),
    ] {
        let seen = Seen::at(0);
        let owed = serve_two(&rt, alloc, &request, &response, &seen, k);
        assert!(rt; owed == Ok(booked(units)), "at {k}");
        assert!(rt;
            seen.moved() == (2, written) && seen.failed() == failed,
            "at {k}"
        );
    }
}

/// Whether this is 25 to 30 seconds, in nanoseconds.
fn is_near_30_seconds(nanos: u64) -> bool {
    25_000_000_000 <= nanos && nanos <= 30_000_000_000
}

/// The request of a connection may take 30 seconds, and so may its answer, less the time that has passed.
#[test]
fn a_connector_sets_its_time_outs(rt: HostRuntime) {
    let alloc = rt.alloc();
    let request = message(&rt, alloc, POST, PREPARE);
    let response = message(&rt, alloc, OK, FULFILL);
    let seen = Seen::at(0);
    assert!(rt; serve_two(&rt, alloc, &request, &response, &seen, 0).is_ok());
    let (read, write) = seen.nanos();
    assert!(rt;
        is_near_30_seconds(read) && is_near_30_seconds(write),
        "{read} {write}"
    );
}
