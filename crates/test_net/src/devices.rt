//! Inputs, outputs and listeners that fail.

use crate::sides::{Terms, connect, receive, send, with_money};
use crate::transfers::{Kept, Place, listen, pattern, transfer, transfer_into};
use crate::wires::{Door, Seen};
use ilpstream_serving::TransferError;
use st_devices::{Counting, FailAt};
use st_file::FileError;
use std::alloc::Global;
use std::io;
use std::io::{ErrorKind, Write};
use std::net::{Net, TcpListener, TcpStream};
use std::process::Abort;
use std::sync::Wait;
use std::thread::Threads;
use std::time::{Duration, Instant};

/// That a sender met the fault after `read` bytes, and that its receiver saw no end, and no other byte.
fn check_part(rt: &impl Abort, kept: &Kept, bytes: &[u8], k: u64, read: u64) {
    assert!(rt;
        kept.sent == Err(TransferError::File(FileError::ReadFault(read))),
        "at {k}"
    );
    assert!(rt; kept.told == Err(TransferError::Turns), "at {k}");
    assert!(rt; kept.bytes.len() as u64 <= read, "at {k}");
    assert!(rt; bytes.starts_with(kept.bytes.as_slice()), "at {k}");
}

/// A transfer to a receiver of 500 connections, by an input whose read `k` fails.
fn transfer_from<
    R: Net<Listener = TcpListener, Stream = TcpStream>
        + Abort
        + Threads
        + Wait
        + std::time::Clock
        + Sync,
>(rt: &R, alloc: Global, bytes: &[u8], k: u64) -> Kept {
    let Place { listener, host } = listen(rt, alloc);
    let host = host.as_str();
    let input = FailAt::new(bytes, k);
    let terms = Terms {
        connections: 500,
        ..with_money(0, 1)
    };
    transfer(rt, alloc, listener, host, &[host], input, terms)
}

/// Each read of the input fails in turn: there are three that give bytes, 4,096 at most, and one that meets the end. The
/// receiver gets no end then, and no other byte.
#[test]
fn each_read_of_the_input_fails_in_turn(rt: HostRuntime) {
    let bytes = pattern(&rt, rt.alloc(), 10_000);
    for (k, read) in [(1, 0), (2, 4_096), (3, 8_192), (4, 10_000)] {
        let kept = transfer_from(&rt, rt.alloc(), &bytes, k);
        check_part(&rt, &kept, &bytes, k, read);
    }
    assert!(rt; TransferError::File(FileError::ReadFault(0)).number() == 90);
}

/// That a receiver reported what it wrote, a front of these bytes: whether that was all, and then both sides reported so.
fn check_written(rt: &impl Abort, came: &Kept, bytes: &[u8], k: u64) -> bool {
    let written = came.bytes.len() as u64;
    assert!(rt; bytes.starts_with(came.bytes.as_slice()), "at {k}");
    if came.told == Ok(10_000) {
        assert!(rt; came.sent == Ok(10_000), "at {k}");
        assert!(rt; written == 10_000);
        return true;
    }
    assert!(rt;
        came.told == Err(TransferError::File(FileError::WriteFault(written))),
        "at {k}"
    );
    false
}

/// A transfer to a receiver of whose output call `k` fails.
fn transfer_to<
    R: Net<Listener = TcpListener, Stream = TcpStream>
        + Abort
        + Threads
        + Wait
        + std::time::Clock
        + Sync,
>(rt: &R, alloc: Global, bytes: &[u8], k: u64) -> Kept {
    let Place { listener, host } = listen(rt, alloc);
    let host = host.as_str();
    let mut writer = Counting::new(FailAt::new(Vec::new(alloc), k));
    let terms = with_money(0, 1);
    let (told, sent) = transfer_into(rt, alloc, listener, host, &[], bytes, &mut writer, terms);
    Kept {
        told,
        bytes: writer.into_inner().into_inner(),
        sent,
    }
}

/// Each call of the output fails in turn, until one run meets no failure: what is reported is what was written.
#[test]
fn each_call_of_the_output_fails_in_turn(rt: HostRuntime) {
    let bytes = pattern(&rt, rt.alloc(), 10_000);
    let mut failed = 0;
    for k in 1..=100u64 {
        let came = transfer_to(&rt, rt.alloc(), &bytes, k);
        if check_written(&rt, &came, &bytes, k) {
            break;
        }
        failed = k;
    }
    assert!(rt; 3 <= failed && failed < 100);
    assert!(rt; TransferError::File(FileError::WriteFault(0)).number() == 91);
}

/// A source of IVs with 23 bytes holds one IV, for the first Prepare, which reaches nobody. Nothing is sent under what is left.
#[test]
fn a_source_of_ivs_that_ends_is_a_fault(rt: HostRuntime) {
    let alloc = rt.alloc();
    let Place { listener, host } = listen(&rt, alloc);
    drop(listener);
    let random = pattern(&rt, alloc, 23);
    let (input, terms) = (b"abc".as_slice(), with_money(0, 1));
    let sent = send(&rt, alloc, host.as_str(), input, random.as_slice(), terms);
    assert!(rt; sent == Err(TransferError::IvFault));
    assert!(rt; sent.err().map(|e| e.number()) == Some(90));
}

/// An output that accepts no byte: each call of it is interrupted.
#[derive(Drop)]
struct Busy;

impl Write for Busy {
    fn write(&mut self, _buf: &[u8]) -> io::Result<usize> {
        Err(io::Error::from(ErrorKind::Interrupted))
    }

    fn flush(&mut self) -> io::Result<()> {
        Err(io::Error::from(ErrorKind::Interrupted))
    }
}

/// A receiver that calls its output 500 times after a request has used up its calls then, and nobody listens any more.
#[test]
fn an_output_that_is_always_interrupted_uses_up_the_turns(rt: HostRuntime) {
    let alloc = rt.alloc();
    let Place { listener, host } = listen(&rt, alloc);
    let host = host.as_str();
    let terms = Terms {
        connections: 500,
        ..with_money(0, 1)
    };
    let mut writer = Counting::new(Busy);
    let input = b"abc".as_slice();
    let (told, sent) = transfer_into(&rt, alloc, listener, host, &[], input, &mut writer, terms);
    assert!(rt; told == Err(TransferError::File(FileError::Turns(0))));
    assert!(rt; told.err().map(|e| e.number()) == Some(93));
    assert!(rt; sent == Err(TransferError::Failed));
}

/// A listener gives no connection, since each accept fails, or since it does not wait: a receiver ends after 100 failures in
/// a row, and so do the workers of a connector.
#[test]
fn a_listener_that_gives_no_connection_is_a_fault(rt: HostRuntime) {
    let alloc = rt.alloc();
    let Place { listener, host } = listen(&rt, alloc);
    drop(listener);
    let mut writer = Counting::new(Vec::new(alloc));
    let begun = Instant::now(&rt).expect(&rt, "there is a clock");
    let seen = Seen::at(0);
    let door = Door {
        seen: &seen,
        brings: None,
        k: 0,
    };
    let told = receive(&rt, alloc, door, &mut writer, with_money(0, 1));
    assert!(rt; told == Err(TransferError::Accept));
    assert!(rt; seen.asked() == 100);
    let took = begun.elapsed(&rt).expect(&rt, "there is a clock");
    assert!(rt; took >= Duration::from_secs(1));
    assert!(rt; told.err().map(|e| e.number()) == Some(80));
    assert!(rt; writer.into_inner().len() == 0);
    let between = listen(&rt, alloc);
    assert!(rt; between.listener.set_nonblocking(true).is_ok());
    let owed = connect(&rt, alloc, between.listener, host.as_str());
    assert!(rt; owed == Err(TransferError::Accept));
}
