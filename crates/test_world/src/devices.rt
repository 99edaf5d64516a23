//! `local` over devices of which a call fails, and with too few I/O calls.

use crate::local::settings;
use ilpstream_local::{LocalFault, LocalSends, play_local, run_local};
use st_devices::{CountRead, CountWrite, FailAt};
use std::alloc::Global;
use std::process::Abort;

const TEXT: &[u8] = b"the quick brown fox";

/// A run whose reader's call number `k` fails. Nothing is written.
fn read_fails(rt: &impl Abort, alloc: Global, k: u64) {
    let mut reader = CountRead::new(FailAt::new(TEXT, k));
    let mut writer = CountWrite::new(Vec::new(alloc));
    let mut errors = CountWrite::new(Vec::new(alloc));
    let settings = settings(1, 0, 2);
    let status = run_local(alloc, &settings, &mut reader, &mut writer, &mut errors);
    sure!(rt; status == 1, k);
    sure!(rt; writer.into_inner().is_empty(), k);
    sure!(rt; errors.into_inner().as_slice() == b"fault 90\n".as_slice(), k);
    sure!(rt; reader.tally().faults == 1, k);
}

/// Each call of the reader fails in turn: one that gives the bytes, and one that meets the end.
#[test]
fn reads_fail(rt: HostRuntime) {
    for k in 1..=2u64 {
        read_fails(&rt, rt.alloc(), k);
    }
}

/// A run whose writer's call number `k` fails.
fn write_fails(rt: &impl Abort, alloc: Global, k: u64, text: &[u8]) {
    let mut reader = CountRead::new(TEXT);
    let mut writer = CountWrite::new(FailAt::new(Vec::new(alloc), k));
    let mut errors = CountWrite::new(Vec::new(alloc));
    let settings = settings(1, 0, 2);
    let status = run_local(alloc, &settings, &mut reader, &mut writer, &mut errors);
    sure!(rt; status == 1, k);
    sure!(rt; writer.tally().faults == 1, k);
    sure!(rt; writer.into_inner().into_inner().as_slice() == text, k);
    sure!(rt; errors.into_inner().as_slice() == b"fault 91\n".as_slice(), k);
}

/// Each call of the writer fails in turn: a write and a flush for each of two parts. What was written by then are the parts
/// before it.
#[test]
fn writes_fail(rt: HostRuntime) {
    let rows: [(u64, &[u8]); 4] = [(1, b""), (2, b"the quick "), (3, b"the quick "), (4, TEXT)];
    for (k, text) in rows {
        write_fails(&rt, rt.alloc(), k, text);
    }
}

/// A run with `given` I/O calls: its result, and the calls that are left.
fn play(alloc: Global, given: u64) -> (Result<(), LocalFault>, u64) {
    let mut turns = given;
    let mut reader = CountRead::new(TEXT);
    let mut writer = CountWrite::new(Vec::new(alloc));
    let settings = settings(1, 0, 2);
    let mut sends = LocalSends::none();
    let played = play_local(
        alloc,
        &settings,
        &mut reader,
        &mut writer,
        &mut turns,
        &mut sends,
    );
    (played, turns)
}

/// Two reads, and for each of two parts a write and a flush, use one I/O call each.
#[test]
fn turns_are_used_up(rt: HostRuntime) {
    for given in 0..6u64 {
        sure!(&rt; play(rt.alloc(), given) == (Err(LocalFault::Turns), 0), given);
    }
    sure!(&rt; play(rt.alloc(), 6) == (Ok(()), 0));
}

/// The numbers of a run over two hops, on three streams, of which each Prepare of this number is lost.
fn sends_of(rt: &impl Abort, alloc: Global, lose: u64, text: &[u8]) -> LocalSends {
    let mut turns = 1_000;
    let mut sends = LocalSends::none();
    let mut reader = CountRead::new(text);
    let mut writer = CountWrite::new(Vec::new(alloc));
    let played = play_local(
        alloc,
        &settings(2, lose, 3),
        &mut reader,
        &mut writer,
        &mut turns,
        &mut sends,
    );
    sure!(rt; played == Ok(()), lose);
    sends
}

/// Runs of 60,000 bytes with losses: the client sends a Prepare for each frame of 16,000 bytes, one for each close, and one
/// more for each that is lost, and no more.
#[test]
fn each_loss_costs_one_prepare(rt: HostRuntime) {
    let text = [7; 60_000];
    for lose in 2..9u64 {
        let sends = sends_of(&rt, rt.alloc(), lose, &text);
        sure!(&rt; sends.sent.checked_div(lose) == Some(sends.lost), lose);
        sure!(&rt; sends.bound == Some(sends.lost.saturating_add(9)), lose);
        sure!(&rt; !sends.is_past(), lose);
    }
}
