//! Calls on a stream by any number, for events and for callers in C. A number that no stream can have is that of a stream
//! that is not open.

ghost use Rattle.std.specs.Prelude.{◌≡◌, ◌≢◌, ◌≤◌, IfOk, OnErr};
ghost use Rattle.st_receiver.specs.Decided.{got_seen};
ghost use Rattle.st_receiver.specs.Reading.{got_count};
ghost use Rattle.st_end.specs.Calls as calls;
ghost use Rattle.st_end.specs.Calls.{OrWants};
ghost use Rattle.st_end.specs.Reading as reading;
ghost use Rattle.st_end.specs.Ready.{TellsRoom, is_ready};
ghost use Rattle.st_end.specs.Seen.{read_seen};
ghost use Rattle.st_end.specs.Totals as totals;

use crate::end::EndState;
use st_streams::{EndError, StreamRead};
use std::alloc::Allocator;

/// `EndState::write` by a number.
pub fn write<A: Allocator + Copy>(
    state: &mut EndState<A>,
    number: u8,
    bytes: &[u8],
) -> Result<(), EndError>
    ensures answers { OrWants state.old (calls.write state.old number bytes.now) (result, state.new) }
    ensures unchanged { OnErr result (state.new ≡ state.old) }
{
    match state.stream_of(number) {
        Some(stream) => state.write(stream, bytes),
        None => Err(EndError::NoStream),
    }
}

/// `EndState::room` by a number.
pub fn room<A: Allocator + Copy>(state: &EndState<A>, number: u8) -> Result<u64, EndError>
    ensures { TellsRoom state.now number result }
{
    match state.stream_of(number) {
        Some(stream) => state.room(stream),
        None => Err(EndError::NoStream),
    }
}

/// `EndState::close` by a number.
pub fn close<A: Allocator + Copy>(state: &mut EndState<A>, number: u8) -> Result<(), EndError>
    ensures answers { calls.close state.old number ≡ (result, state.new) }
{
    match state.stream_of(number) {
        Some(stream) => state.close(stream),
        None => Err(EndError::NoStream),
    }
}

/// `EndState::abort` by a number.
pub fn abort<A: Allocator + Copy>(
    state: &mut EndState<A>,
    number: u8,
    code: u8,
) -> Result<(), EndError>
    requires { code ≢ 1 }
    ensures answers { calls.abort state.old number code ≡ (result, state.new) }
{
    match state.stream_of(number) {
        Some(stream) => state.abort(stream, code),
        None => Err(EndError::NoStream),
    }
}

/// `EndState::offer` by a number.
pub fn offer<A: Allocator + Copy>(
    state: &mut EndState<A>,
    number: u8,
    amount: u64,
) -> Result<(), EndError>
    ensures answers { calls.offer state.old number amount ≡ (result, state.new) }
{
    match state.stream_of(number) {
        Some(stream) => state.offer(stream, amount),
        None => Err(EndError::NoStream),
    }
}

/// `EndState::set_receive_max` by a number.
pub fn set_receive_max<A: Allocator + Copy>(
    state: &mut EndState<A>,
    number: u8,
    amount: u64,
) -> Result<(), EndError>
    ensures answers { calls.set_receive_max state.old number amount ≡ (result, state.new) }
{
    match state.stream_of(number) {
        Some(stream) => state.set_receive_max(stream, amount),
        None => Err(EndError::NoStream),
    }
}

/// `EndState::read` by a number.
pub fn read<A: Allocator + Copy>(
    state: &mut EndState<A>,
    number: u8,
    max: usize,
) -> Result<StreamRead<A>, EndError>
    requires { 1 ≤ max }
    ensures answers { OrWants state.old (reading.read state.old number max) (read_seen result, state.new) }
    ensures few { IfOk result (λ g. got_count (got_seen g) ≤ 65536) }
    ensures unchanged { OnErr result (state.new ≡ state.old) }
{
    match state.stream_of(number) {
        Some(stream) => state.read(stream, max),
        None => Err(EndError::NoStream),
    }
}

/// `EndState::has_stream` by a number.
pub fn has_stream<A: Allocator + Copy>(state: &EndState<A>, number: u8) -> bool
    ensures { result ≡ calls.has_stream state.now number }
{
    match state.stream_of(number) {
        Some(stream) => state.has_stream(stream),
        None => false,
    }
}

/// `EndState::is_ready` by a number.
pub fn is_ready<A: Allocator + Copy>(state: &EndState<A>, number: u8) -> bool
    ensures { result ≡ is_ready state.now number }
{
    match state.stream_of(number) {
        Some(stream) => state.is_ready(stream),
        None => false,
    }
}

/// `EndState::settled` by a number.
pub fn settled<A: Allocator + Copy>(state: &EndState<A>, number: u8) -> bool
    ensures { result ≡ totals.settled state.now number }
{
    match state.stream_of(number) {
        Some(stream) => state.settled(stream),
        None => false,
    }
}

/// `EndState::waits` by a number.
pub fn waits<A: Allocator + Copy>(state: &EndState<A>, number: u8) -> bool
    ensures { result ≡ totals.waits state.now number }
{
    match state.stream_of(number) {
        Some(stream) => state.waits(stream),
        None => false,
    }
}
