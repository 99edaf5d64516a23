//! The moments that a clock gives, and the time-outs that links and receivers set. The clock does not advance in these tests.

use crate::sides::{TOKEN, Terms, receive, with_money};
use crate::wires::{Door, Seen, Wires};
use ilpstream_serving::{HttpLink, RuntimeClock, TransferError};
use st_devices::Counting;
use st_http::is_field_text;
use st_ilp::Moment;
use st_links::{Clock, Link};

/// A network of which no connection brings a byte.
fn silent<'a, R>(rt: &'a R, seen: &'a Seen) -> Wires<'a, R> {
    Wires {
        rt,
        seen,
        brings: Some(b""),
        k: 0,
    }
}

/// A clock gives what was read at the runtime's, and what it gave before if that was set back by at most five seconds.
#[test]
fn a_clock_tells_what_was_read(rt: HostRuntime) {
    let seen = Seen::at(5_000);
    let net = silent(&rt, &seen);
    let mut clock = RuntimeClock::new(&net);
    assert!(rt; clock.now().ms() == 5_000);
    seen.set_millis(7_001);
    assert!(rt; clock.now().ms() == 7_001);
    for (millis, told) in [
        (6_000, 7_001),
        (2_001, 7_001),
        (2_000, 2_000),
        (1_999, 2_000),
    ] {
        seen.set_millis(millis);
        assert!(rt; clock.now().ms() == told, "{millis}");
    }
}

const HOST: &str = "127.0.0.1:7770";

/// An exchange may take until its Prepare expires, and 30 seconds at most: so long each connection attempt, read and write may
/// take, if the clock does not advance.
#[test]
fn a_link_sets_its_time_outs(rt: HostRuntime) {
    assert!(rt; is_field_text(HOST) && is_field_text(TOKEN));
    for (by, seconds) in [(9_000, 4u64), (35_000, 30), (100_000, 30)] {
        let seen = Seen::at(5_000);
        let net = silent(&rt, &seen);
        let by = Moment::new(by).expect(&rt, "a moment");
        match HttpLink::new(rt.alloc(), rt.alloc(), &net, HOST, TOKEN, 1_000) {
            Ok(mut link) => assert!(rt; link.exchange(b"abc", by).is_err()),
            Err(_) => panic!(rt; "there is memory"),
        }
        let nanos = seconds * 1_000_000_000;
        assert!(rt; seen.connect_nanos() == nanos, "{seconds}");
        assert!(rt; seen.nanos() == (nanos, nanos), "{seconds}");
    }
}

/// A request may take 30 seconds, and so may the answer that refuses it, if the clock does not advance.
#[test]
fn a_receiver_sets_its_time_outs(rt: HostRuntime) {
    let seen = Seen::at(5_000);
    let door = Door {
        seen: &seen,
        brings: Some(b"BAD\r\n\r\n"),
        k: 0,
    };
    let terms = Terms {
        connections: 10,
        ..with_money(0, 1)
    };
    let mut writer = Counting::new(Vec::new(rt.alloc()));
    let told = receive(&silent(&rt, &seen), rt.alloc(), door, &mut writer, terms);
    assert!(rt; told == Err(TransferError::Turns));
    assert!(rt; seen.nanos() == (30_000_000_000, 30_000_000_000));
}
