//! A sender that aborts its stream.

use crate::sides::{TOKEN, TURNS, receive, sender, with_money};
use crate::transfers::{Place, listen};
use ilpstream_serving::{HttpLink, RuntimeClock, TransferError};
use st_devices::Counting;
use st_end::{EndState, Flight, StreamId};
use st_file::FileError;
use st_http::is_field_text;
use st_ilp::Moment;
use st_links::{Clock, Link};
use st_oer::Rate;
use std::alloc::Global;
use std::net::Net;
use std::thread;

/// The year 9999, which no exchange of a test reaches.
const LATE: i64 = 253_402_300_000_000;

/// A flight that is abandoned when it is dropped.
struct Waiting {
    flight: Flight,
}

impl Drop for Waiting {
    fn drop(self) {
        let Waiting { flight } = self;
        flight.abandon();
    }
}

impl Waiting {
    fn spend(self) -> Flight {
        let Waiting { flight } = self;
        flight
    }
}

/// Processes the answer of the peer to a flight, and returns whether it was a Fulfill that was accepted.
fn takes(end: &mut EndState<Global>, waiting: Waiting, answer: Option<Vec<u8>>) -> bool {
    let flight = waiting.spend();
    if !end.is_open(&flight) {
        flight.abandon();
        return false;
    }
    let Some(mut bytes) = answer else {
        end.fault(flight);
        return false;
    };
    end.answer(flight, &mut bytes)
}

/// Sends the next packet, and processes its answer: whether it was a Fulfill.
fn send_next<N: Net + std::time::Clock>(
    net: &N,
    end: &mut EndState<Global>,
    link: &mut HttpLink<'_, N, Global>,
    number: u8,
) -> bool {
    let now = RuntimeClock::new(net).now();
    let Ok(next) = end.send([number; 12], now) else {
        return false;
    };
    let Some((flight, bytes)) = next else {
        return false;
    };
    let waiting = Waiting { flight };
    let answer = match Moment::new(LATE) {
        Some(by) => link.exchange(&bytes, by).ok(),
        None => None,
    };
    takes(end, waiting, answer)
}

/// Sends "abc" on stream 1, and then aborts it with code 9: whether both were fulfilled.
fn send_and_abort<N: Net + std::time::Clock>(net: &N, alloc: Global, host: &str) -> bool {
    if !is_field_text(host) || !is_field_text(TOKEN) {
        return false;
    }
    let Ok(mut link) = HttpLink::new(alloc, alloc, net, host, TOKEN, TURNS) else {
        return false;
    };
    let Ok(mut end) = sender(alloc, Rate::new(1, 1).unwrap()) else {
        return false;
    };
    if end.open_stream() != Ok(StreamId::FIRST) || end.write(StreamId::FIRST, b"abc").is_err() {
        return false;
    }
    if !send_next(net, &mut end, &mut link, 1) || end.abort(StreamId::FIRST, 9).is_err() {
        return false;
    }
    send_next(net, &mut end, &mut link, 2)
}

/// The receiver writes what arrived before the abort, answers the request with it, and then reports it.
#[test]
fn an_abort_is_told_once_it_was_answered(rt: HostRuntime) {
    let alloc = rt.alloc();
    let Place { listener, host } = listen(&rt, alloc);
    let mut writer = Counting::new(Vec::new(alloc));
    let (told, fulfilled) = thread::join(
        &rt,
        || receive(&rt, alloc, listener, &mut writer, with_money(0, 1)),
        || send_and_abort(&rt, alloc, host.as_str()),
    );
    assert!(rt; fulfilled);
    assert!(rt; told == Err(TransferError::File(FileError::Aborted(9, 3))));
    assert!(rt; told.err().map(|e| e.number()) == Some(92));
    assert!(rt; writer.into_inner().as_slice() == b"abc".as_slice());
}
