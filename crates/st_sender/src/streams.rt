//! The streams by number: 65 places for the numbers 0 to 64. Place 0 stays empty.

ghost use Rattle.std.specs.Prelude.{true, false, ◌≡◌, ◌≢◌, ℕ, ◌+◌, ◌<◌, ◌≤◌, ◌^◌, None, Some, length, nat_le, slice_set, ◌-◌, OnOk, OnErr, IfOk};
ghost use Rattle.st_streams.specs.Slots.{slot, with_slot, no_slots};
ghost use Rattle.st_sender.specs.Accepting.{after_write, after_clean, after_stream_abort, after_offer};
ghost use Rattle.st_sender.specs.Answering.{told_data, advertised_receive_max, is_settled};
ghost use Rattle.st_sender.specs.Lanes.{changed_lane, on_out, out_of, outs, new_lane, why_not_write, why_not_offer};
ghost use Rattle.st_sender.specs.Refusals.{refusal_at, is_closed, is_aborted, no_more, Answers, AnswersOrWants, accepted_of, offered_of};
ghost use Rattle.st_sender.specs.Refusals as specs;
ghost use Rattle.st_sender.specs.Room.{TellsRoom};
ghost use Rattle.st_sender.specs.Waiting.{is_waiting};

use crate::error::OutboxError;
use crate::stream::Stream;
use st_streams::StreamId;
use std::alloc::{AllocError, Allocator};

/// 65 places without a stream. Fails if memory is refused.
pub fn no_streams<A: Allocator + Copy>(alloc: A) -> Result<Vec<Option<Stream<A>>, A>, AllocError>
    ensures { IfOk result (λ v. v.items ≡ no_slots) }
{
    let mut slots = Vec::new(alloc);
    for _number in 0..65_u8 {
        slots.push(None)?;
    }
    Ok(slots)
}

/// 65 places without a mark. Fails if memory is refused.
pub fn no_marks<A: Allocator + Copy>(alloc: A) -> Result<Vec<Option<u64>, A>, AllocError>
    ensures { IfOk result (λ v. v.items ≡ no_slots) }
{
    let mut slots = Vec::new(alloc);
    for _number in 0..65_u8 {
        slots.push(None)?;
    }
    Ok(slots)
}

/// Whether a stream is open.
pub fn is_open<A: Allocator + Copy>(streams: &Vec<Option<Stream<A>>, A>, stream: StreamId) -> bool
    ensures yes { result ≡ true → slot streams.now.items stream ≢ None }
    ensures no { result ≡ false → slot streams.now.items stream ≡ None }
{
    let place = stream.place();
    if place >= streams.len() {
        return false;
    }
    streams[place].is_some()
}

/// Whether a StreamClose of the stream was fulfilled.
pub fn settled<A: Allocator + Copy>(streams: &Vec<Option<Stream<A>>, A>, stream: StreamId) -> bool
    ensures { result ≡ is_settled (out_of (slot streams.now.items stream)) }
{
    let place = stream.place();
    if place >= streams.len() {
        return false;
    }
    match &streams[place] {
        Some(found) => found.is_settled(),
        None => false,
    }
}

/// Whether accepted bytes of the stream are not acknowledged, or its close is not fulfilled.
pub fn waiting<A: Allocator + Copy>(streams: &Vec<Option<Stream<A>>, A>, stream: StreamId) -> bool
    ensures { result ≡ is_waiting (out_of (slot streams.now.items stream)) }
{
    let place = stream.place();
    if place >= streams.len() {
        return false;
    }
    match &streams[place] {
        Some(found) => found.is_waiting(),
        None => false,
    }
}

/// Opens a stream.
pub fn open<A: Allocator + Copy>(
    streams: &mut Vec<Option<Stream<A>>, A>,
    alloc: A,
    stream: StreamId,
)
    requires { length streams.old.items ≡ 65 }
    ensures { streams.new.items ≡ with_slot streams.old.items stream new_lane }
{
    streams[stream.place()] = Some(Stream::new(alloc));
}

/// The bytes accepted on a stream.
fn accepted_in<A: Allocator + Copy>(place: &Option<Stream<A>>) -> u64
    ensures { result ≡ accepted_of (out_of place.now) }
{
    match place {
        Some(stream) => stream.accepted(),
        None => 0,
    }
}

/// The number of bytes accepted on all streams.
pub fn all_accepted<A: Allocator + Copy>(streams: &Vec<Option<Stream<A>>, A>) -> u128
    ensures { result ≡ specs.all_accepted (outs streams.now.items) }
{
    let mut total = 0;
    for place in streams {
        total += u128::from(accepted_in(place));
    }
    total
}

/// The money offered on a stream.
fn offered_in<A: Allocator + Copy>(place: &Option<Stream<A>>) -> u64
    ensures { result ≡ offered_of (out_of place.now) }
{
    match place {
        Some(stream) => stream.offered(),
        None => 0,
    }
}

/// The money offered on all streams.
fn all_offered<A: Allocator + Copy>(streams: &Vec<Option<Stream<A>>, A>) -> u128
    ensures { result ≡ specs.all_offered (outs streams.now.items) }
{
    let mut total = 0;
    for place in streams {
        total += u128::from(offered_in(place));
    }
    total
}

/// So much more would come to 2^63 or more.
fn is_too_much(all: u128, more: u64) -> bool
    ensures { result ≡ nat_le (2 ^ 63) (all + more) }
{
    all.saturating_add(u128::from(more)) >= 1 << 63
}

/// How many more bytes all streams together accept: those that were ever accepted stay below 2^63.
fn left_in_all(all: u128) -> u64
    ensures { result ≡ 2 ^ 63 - 1 - all }
{
    9_223_372_036_854_775_807_u128.saturating_sub(all) as u64
}

/// How many bytes a write of a stream may have. The errors are those of `Outbox::accept` for no bytes.
#[tactic(auto, using(crate::proofs::Room::is_room))]
pub fn room<A: Allocator + Copy>(
    streams: &Vec<Option<Stream<A>>, A>,
    stream: StreamId,
) -> Result<u64, OutboxError>
    ensures { TellsRoom (out_of (slot streams.now.items stream)) (specs.all_accepted (outs streams.now.items)) result }
{
    let place = stream.place();
    if place >= streams.len() {
        return Err(OutboxError::NoStream);
    }
    let all = all_accepted(streams);
    match &streams[place] {
        None => Err(OutboxError::NoStream),
        Some(found) => {
            if found.is_closed() {
                return Err(OutboxError::Closed);
            }
            if found.is_full_with(0) || is_too_much(all, 0) {
                return Err(OutboxError::Full);
            }
            Ok(found.room().min(left_in_all(all)))
        }
    }
}

/// Queues bytes on a stream: all of them, or none. The errors are those of `Outbox::accept`.
pub fn accept<A: Allocator + Copy>(
    streams: &mut Vec<Option<Stream<A>>, A>,
    stream: StreamId,
    bytes: &[u8],
) -> Result<(), OutboxError>
    ensures accepts { OnOk result (streams.new.items ≡ changed_lane streams.old.items stream (on_out (after_write bytes.now))) }
    ensures unchanged { OnErr result (streams.new.items ≡ streams.old.items) }
    ensures refuses { AnswersOrWants (why_not_write streams.old.items stream (length bytes.now)) result }
{
    let place = stream.place();
    if place >= streams.len() {
        return Err(OutboxError::NoStream);
    }
    let all = all_accepted(streams);
    match &mut streams[place] {
        None => Err(OutboxError::NoStream),
        Some(found) => {
            if found.is_closed() {
                return Err(OutboxError::Closed);
            }
            if found.is_full_with(bytes.len()) || is_too_much(all, bytes.len() as u64) {
                return Err(OutboxError::Full);
            }
            found.accept(bytes).map_err(|_| OutboxError::NoMemory)
        }
    }
}

/// Closes a stream cleanly. The errors are those of `Outbox::close`.
pub fn close<A: Allocator + Copy>(
    streams: &mut Vec<Option<Stream<A>>, A>,
    stream: StreamId,
) -> Result<(), OutboxError>
    ensures closes { OnOk result (streams.new.items ≡ changed_lane streams.old.items stream (on_out after_clean)) }
    ensures unchanged { OnErr result (streams.new.items ≡ streams.old.items) }
    ensures refuses { Answers (refusal_at (out_of (slot streams.old.items stream)) is_closed no_more) result }
{
    let place = stream.place();
    if place >= streams.len() {
        return Err(OutboxError::NoStream);
    }
    match &mut streams[place] {
        None => Err(OutboxError::NoStream),
        Some(found) => {
            if found.is_closed() {
                return Err(OutboxError::Closed);
            }
            found.close();
            Ok(())
        }
    }
}

/// Aborts a stream with this code. The errors are those of `Outbox::abort`.
pub fn abort<A: Allocator + Copy>(
    streams: &mut Vec<Option<Stream<A>>, A>,
    stream: StreamId,
    code: u8,
) -> Result<(), OutboxError>
    ensures aborts { OnOk result (streams.new.items ≡ changed_lane streams.old.items stream (on_out (after_stream_abort code))) }
    ensures unchanged { OnErr result (streams.new.items ≡ streams.old.items) }
    ensures refuses { Answers (refusal_at (out_of (slot streams.old.items stream)) is_aborted no_more) result }
{
    let place = stream.place();
    if place >= streams.len() {
        return Err(OutboxError::NoStream);
    }
    match &mut streams[place] {
        None => Err(OutboxError::NoStream),
        Some(found) => {
            if found.is_aborted() {
                return Err(OutboxError::Closed);
            }
            found.abort(code);
            Ok(())
        }
    }
}

/// Offers money on a stream. The errors are those of `Outbox::offer`.
pub fn offer<A: Allocator + Copy>(
    streams: &mut Vec<Option<Stream<A>>, A>,
    stream: StreamId,
    amount: u64,
) -> Result<(), OutboxError>
    ensures offers { OnOk result (streams.new.items ≡ changed_lane streams.old.items stream (on_out (after_offer amount))) }
    ensures unchanged { OnErr result (streams.new.items ≡ streams.old.items) }
    ensures refuses { Answers (why_not_offer streams.old.items stream amount) result }
{
    let place = stream.place();
    if place >= streams.len() {
        return Err(OutboxError::NoStream);
    }
    let all = all_offered(streams);
    match &mut streams[place] {
        None => Err(OutboxError::NoStream),
        Some(found) => {
            if found.is_closed() {
                return Err(OutboxError::Closed);
            }
            if is_too_much(all, amount) {
                return Err(OutboxError::AmountTooLarge);
            }
            found.offer(amount);
            Ok(())
        }
    }
}

/// Takes the peer's limit on a stream's offsets. The limit of a stream that is not open is ignored.
pub fn raise<A: Allocator + Copy>(
    streams: &mut Vec<Option<Stream<A>>, A>,
    stream: u64,
    max_offset: u64,
)
    ensures { streams.new.items ≡ changed_lane streams.old.items stream (on_out (told_data max_offset)) }
{
    if stream < streams.len() as u64 {
        if let Some(found) = &mut streams[stream as usize] {
            found.raise(max_offset);
        }
    }
}

/// Takes the peer's receive max of a stream, and how much it received. Those of a stream that is not open are ignored.
pub fn raise_money<A: Allocator + Copy>(
    streams: &mut Vec<Option<Stream<A>>, A>,
    stream: u64,
    receive_max: u64,
    total: u64,
)
    ensures { streams.new.items ≡ changed_lane streams.old.items stream (on_out (advertised_receive_max receive_max total)) }
{
    if stream < streams.len() as u64 {
        if let Some(found) = &mut streams[stream as usize] {
            found.raise_money(receive_max, total);
        }
    }
}

/// Sets the mark of a stream. If there is no such place, nothing changes.
pub fn set_mark<A: Allocator + Copy>(marks: &mut Vec<Option<u64>, A>, stream: u64, value: u64)
    ensures { marks.new.items ≡ slice_set marks.old.items stream (Some value) }
{
    if stream < marks.len() as u64 {
        marks[stream as usize] = Some(value);
    }
}
