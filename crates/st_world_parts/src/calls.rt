//! Calls on an end's streams, each with the ledger of the stream.

ghost use Rattle.std.specs.Prelude.{◌≡◌, ◌≢◌, ◌≤◌, OnErr, IfOk};
ghost use Rattle.st_end.specs.Calls as calls;
ghost use Rattle.st_end.specs.Reading as reading;
ghost use Rattle.st_world_parts.specs.Events as events;
ghost use Rattle.st_world_parts.specs.StreamLogs.{ledger_or, written, cleanly_closed, given_up};
ghost use Rattle.std.specs.FinMap as fmap;
ghost use Rattle.st_world_parts.specs.Seen.{told_seen};
ghost use Rattle.st_world_parts.specs.Parts.{CallMet, OpenMet, RaiseMet, ReadMet, SlotMet, SlotRead};

use crate::ledger::{Slot, StreamLogs};
use crate::party::Party;
use crate::told::Told;
use st_end::{EndError, EndState, by_number};
use st_receiver::Got;
use std::alloc::{AllocError, Allocator};

/// The most bytes that a read gives: a stream's window.
const MAX_READ: usize = 65_536;

/// A write, with the place of the stream's ledger.
fn write_slot<A: Allocator + Copy>(
    state: &mut EndState<A>,
    slot: &mut Slot<A>,
    stream: u8,
    bytes: &[u8],
) -> Result<Told<A>, AllocError>
    ensures met { IfOk result (λ told. SlotMet (calls.write state.old stream bytes.now)
        (written bytes.now (ledger_or slot.old)) (told_seen told) state.old state.new slot.old slot.new) }
    ensures same_state { OnErr result (state.new ≡ state.old) }
    ensures same_slot { OnErr result (slot.new ≡ slot.old) }
{
    slot.ledger.written.reserve(bytes.len())?;
    match by_number::write(state, stream, bytes) {
        Ok(()) => {
            slot.ledger.written.extend_from_slice(bytes).unwrap();
            slot.is_there = true;
            Ok(Told::Call(Ok(())))
        }
        Err(EndError::NoMemory) => Ok(Told::NoMemory),
        Err(why) => Ok(Told::Call(Err(why))),
    }
}

/// A clean close, with the place of the stream's ledger. Does not allocate.
fn close_slot<A: Allocator + Copy>(
    state: &mut EndState<A>,
    slot: &mut Slot<A>,
    stream: u8,
) -> Told<A>
    ensures met { SlotMet (calls.close state.old stream) (cleanly_closed (ledger_or slot.old)) (told_seen result) state.old state.new slot.old slot.new }
    ensures called { told_seen result ≡ events.Call (calls.close state.old stream).0 }
{
    match by_number::close(state, stream) {
        Ok(()) => {
            slot.ledger.clean = true;
            slot.is_there = true;
            Told::Call(Ok(()))
        }
        Err(why) => Told::Call(Err(why)),
    }
}

/// An abort, with the place of the stream's ledger. Does not allocate.
fn abort_slot<A: Allocator + Copy>(
    state: &mut EndState<A>,
    slot: &mut Slot<A>,
    stream: u8,
    code: u8,
) -> Told<A>
    requires { code ≢ 1 }
    ensures met { SlotMet (calls.abort state.old stream code) (given_up (ledger_or slot.old)) (told_seen result) state.old state.new slot.old slot.new }
    ensures called { told_seen result ≡ events.Call (calls.abort state.old stream code).0 }
{
    match by_number::abort(state, stream, code) {
        Ok(()) => {
            slot.ledger.aborted = true;
            slot.is_there = true;
            Told::Call(Ok(()))
        }
        Err(why) => Told::Call(Err(why)),
    }
}

/// An offer, with the place of the stream's ledger. Does not allocate.
fn offer_slot<A: Allocator + Copy>(
    state: &mut EndState<A>,
    slot: &mut Slot<A>,
    stream: u8,
    amount: u64,
) -> Told<A>
    ensures met { SlotMet (calls.offer state.old stream amount) (ledger_or slot.old) (told_seen result) state.old state.new slot.old slot.new }
    ensures called { told_seen result ≡ events.Call (calls.offer state.old stream amount).0 }
{
    match by_number::offer(state, stream, amount) {
        Ok(()) => {
            slot.is_there = true;
            Told::Call(Ok(()))
        }
        Err(why) => Told::Call(Err(why)),
    }
}

/// A read, with the place of the stream's ledger.
fn read_slot<A: Allocator + Copy>(
    state: &mut EndState<A>,
    slot: &mut Slot<A>,
    stream: u8,
    max: usize,
) -> Result<Told<A>, AllocError>
    requires { 1 ≤ max }
    ensures met { IfOk result (λ told. SlotRead (reading.read state.old stream max) (told_seen told) state.old state.new slot.old slot.new) }
    ensures same_state { OnErr result (state.new ≡ state.old) }
    ensures same_slot { OnErr result (slot.new ≡ slot.old) }
{
    let room = max.min(MAX_READ);
    slot.ledger.read.reserve(room)?;
    match by_number::read(state, stream, max) {
        Ok(Got::Bytes(bytes)) => {
            slot.ledger.read.extend_from_slice(&bytes).unwrap();
            slot.is_there = true;
            Ok(Told::Gave(Ok(Got::Bytes(bytes))))
        }
        Ok(Got::Nothing) => {
            slot.is_there = true;
            Ok(Told::Gave(Ok(Got::Nothing)))
        }
        Ok(Got::End) => {
            slot.ledger.saw_end = true;
            slot.is_there = true;
            Ok(Told::Gave(Ok(Got::End)))
        }
        Ok(Got::Aborted(code)) => {
            slot.ledger.saw_abort = true;
            slot.is_there = true;
            Ok(Told::Gave(Ok(Got::Aborted(code))))
        }
        Err(EndError::NoMemory) => Ok(Told::NoMemory),
        Err(why) => Ok(Told::Gave(Err(why))),
    }
}

/// Calls `EndState::write` at an end. `ledgers` are those of the streams that this end writes. The answer is in
/// `Told::Call`, or `Told::NoMemory` if the call ran out of memory. Fails if memory for the record is refused, and then
/// nothing has changed.
pub fn write_at<A: Allocator + Copy>(
    party: &mut Party<A>,
    ledgers: &mut StreamLogs<A>,
    stream: u8,
    bytes: &[u8],
) -> Result<Told<A>, AllocError>
    ensures met { IfOk result (λ told. CallMet (calls.write party.old.state stream bytes.now) stream
        (written bytes.now (ledger_or (fmap.get ledgers.old stream))) (told_seen told) party.old party.new ledgers.old ledgers.new) }
    ensures same_party { OnErr result (party.new ≡ party.old) }
    ensures same_ledgers { OnErr result (ledgers.new ≡ ledgers.old) }
{
    let slot = &mut ledgers.slots[usize::from(stream)];
    let told = write_slot(&mut party.state, slot, stream, bytes)?;
    Ok(told)
}

/// Calls `EndState::close` at an end. `ledgers` are those of the streams that this end writes. The answer is in
/// `Told::Call`. Does not allocate.
pub fn close_at<A: Allocator + Copy>(
    party: &mut Party<A>,
    ledgers: &mut StreamLogs<A>,
    stream: u8,
) -> Told<A>
    ensures met { CallMet (calls.close party.old.state stream) stream
        (cleanly_closed (ledger_or (fmap.get ledgers.old stream))) (told_seen result) party.old party.new ledgers.old ledgers.new }
    ensures called { told_seen result ≡ events.Call (calls.close party.old.state stream).0 }
{
    let slot = &mut ledgers.slots[usize::from(stream)];
    close_slot(&mut party.state, slot, stream)
}

/// Calls `EndState::abort` at an end, with a code other than 1. `ledgers` are those of the streams that this end
/// writes. The answer is in `Told::Call`. Does not allocate.
pub fn abort_at<A: Allocator + Copy>(
    party: &mut Party<A>,
    ledgers: &mut StreamLogs<A>,
    stream: u8,
    code: u8,
) -> Told<A>
    requires { code ≢ 1 }
    ensures met { CallMet (calls.abort party.old.state stream code) stream
        (given_up (ledger_or (fmap.get ledgers.old stream))) (told_seen result) party.old party.new ledgers.old ledgers.new }
    ensures called { told_seen result ≡ events.Call (calls.abort party.old.state stream code).0 }
{
    let slot = &mut ledgers.slots[usize::from(stream)];
    abort_slot(&mut party.state, slot, stream, code)
}

/// Calls `EndState::offer` at an end. `ledgers` are those of the streams that this end writes. The answer is in
/// `Told::Call`. Does not allocate.
pub fn offer_at<A: Allocator + Copy>(
    party: &mut Party<A>,
    ledgers: &mut StreamLogs<A>,
    stream: u8,
    amount: u64,
) -> Told<A>
    ensures met { CallMet (calls.offer party.old.state stream amount) stream
        (ledger_or (fmap.get ledgers.old stream)) (told_seen result) party.old party.new ledgers.old ledgers.new }
    ensures called { told_seen result ≡ events.Call (calls.offer party.old.state stream amount).0 }
{
    let slot = &mut ledgers.slots[usize::from(stream)];
    offer_slot(&mut party.state, slot, stream, amount)
}

/// Calls `EndState::read` at an end, of at most `max` bytes. `ledgers` are those of the streams that its peer writes.
/// The result is in `Told::Gave`, or `Told::NoMemory` if the call ran out of memory. Fails if memory for the record is
/// refused, and then nothing has changed. That is room for the lesser of `max` and 65,536 bytes: no read gives more.
pub fn read_at<A: Allocator + Copy>(
    party: &mut Party<A>,
    ledgers: &mut StreamLogs<A>,
    stream: u8,
    max: usize,
) -> Result<Told<A>, AllocError>
    requires { 1 ≤ max }
    ensures met { IfOk result (λ told. ReadMet (reading.read party.old.state stream max) stream (told_seen told) party.old party.new ledgers.old ledgers.new) }
    ensures same_party { OnErr result (party.new ≡ party.old) }
    ensures same_ledgers { OnErr result (ledgers.new ≡ ledgers.old) }
{
    let slot = &mut ledgers.slots[usize::from(stream)];
    let told = read_slot(&mut party.state, slot, stream, max)?;
    Ok(told)
}

/// Calls `EndState::open_stream` at an end. The result is in `Told::Opened`, or is `Told::NoMemory` if memory ran out.
pub fn open_at<A: Allocator + Copy>(party: &mut Party<A>) -> Told<A>
    ensures { OpenMet (calls.open_stream party.old.state) (told_seen result) party.old party.new }
{
    match party.state.open_stream() {
        Ok(stream) => Told::Opened(Ok(stream.number())),
        Err(EndError::NoMemory) => Told::NoMemory,
        Err(why) => Told::Opened(Err(why)),
    }
}

/// Calls `EndState::set_receive_max` at an end, with an amount in units of its asset. The answer is in `Told::Call`.
/// Does not allocate.
pub fn raise_at<A: Allocator + Copy>(party: &mut Party<A>, stream: u8, amount: u64) -> Told<A>
    ensures { RaiseMet (calls.set_receive_max party.old.state stream amount) (told_seen result) party.old party.new }
{
    let answer = by_number::set_receive_max(&mut party.state, stream, amount);
    Told::Call(answer)
}
