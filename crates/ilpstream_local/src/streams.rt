//! The input's parts, each on a stream of its own.

ghost use Rattle.std.specs.Prelude.{◌≡◌, ◌+◌, ◌<◌, ◌≤◌, ◌↔◌, ◌∷◌, ℕ, [], length, true, false, OnOk, OnErr, IfOk, IfErr};
ghost use Rattle.ilpstream_local.specs.Parts.{part_at, part_size, stream_at};
ghost use Rattle.ilpstream_local.specs.Playing.{Continues, HasFailed, HasSent, IsAllRead, Plays, Sends, StopsPlay, most_events, read_on, written_on};
ghost use Rattle.ilpstream_local.specs.Schedule.{Begins, BeginsEach, BeginsRound, BeginsToClose, BeginsToRead, Closes, HaveEnded, IsCounted, IsDenied, IsOver, IsWhole, LastRound, Reads, ReadsOne, Round, Scheduled, StopsSending, Takes, TakesWrites, WritesAll, closing, each, next_write, opens, reach_of, reading};

use crate::chain::{Counts, send_client, send_server};
use crate::fault::LocalFault;
use crate::parts::{part_size, stream_at};
use crate::play::Play;
use st_world::Event;
use st_world_parts::Side;
use std::alloc::Allocator;

/// How many bytes are written at once.
const PIECE: usize = 16_384;

/// How many bytes are read at once.
const MAX_READ: usize = 65_536;

/// The client opens a given number of streams.
fn open_streams<A: Allocator + Copy>(play: &mut Play<A>, streams: usize) -> Result<(), LocalFault>
    ensures kept { Continues play.old play.new }
    ensures taken { OnOk result (Takes (each opens streams) play.old play.new) }
    ensures begun { OnErr result (BeginsEach opens streams play.old play.new) }
    ensures why { IfErr result (StopsPlay play.new) }
{
    for place in 0..streams {
        let _opened = place;
        let _told = play.pass(&Event::OpenStream(Side::Client))?;
    }
    Ok(())
}

/// Writes the next bytes of the input, those of one part. Returns whether they were accepted.
fn write_piece<A: Allocator + Copy>(
    play: &mut Play<A>,
    input: &[u8],
    streams: usize,
    sent: &mut usize,
) -> Result<bool, LocalFault>
    requires some { 0 < streams }
    requires few { streams ≤ 32 }
    requires left { sent.old < length input.now }
    ensures writes { TakesWrites play.old play.new }
    ensures sent { Sends (part_size (length input.now) streams) input.now sent.old sent.new play.old play.new }
    ensures within { sent.new ≤ length input.now }
    ensures some { IfOk result (λ taken. taken ≡ true → sent.old < sent.new) }
    ensures why { IfErr result (StopsPlay play.new) }
    ensures denied { IfOk result (λ taken. taken ≡ false
        → (sent.new ≡ sent.old) × IsDenied (next_write (part_size (length input.now) streams) input.now sent.old) play.old play.new) }
{
    let size = part_size(input.len(), streams);
    let place = *sent / size;
    let count = PIECE.min(size - *sent % size).min(input.len() - *sent);
    let taken = play.write(stream_at(place), &input[*sent..*sent + count])?;
    if taken {
        *sent += count;
    }
    Ok(taken)
}

/// Writes as much of the input as the client accepts now.
fn write_all<A: Allocator + Copy>(
    play: &mut Play<A>,
    input: &[u8],
    streams: usize,
    sent: &mut usize,
) -> Result<(), LocalFault>
    requires some { 0 < streams }
    requires few { streams ≤ 32 }
    requires within { sent.old ≤ length input.now }
    ensures writes { TakesWrites play.old play.new }
    ensures sent { Sends (part_size (length input.now) streams) input.now sent.old sent.new play.old play.new }
    ensures within { sent.new ≤ length input.now }
    ensures why { IfErr result (StopsPlay play.new) }
    ensures all { OnOk result (WritesAll (part_size (length input.now) streams) input.now sent.new play.old play.new) }
{
    while *sent < input.len() {
        if !write_piece(play, input, streams, sent)? {
            return Ok(());
        }
    }
    Ok(())
}

/// Whether the part at a place is written, if `sent` of `bytes` bytes are.
fn is_whole(size: usize, bytes: usize, sent: usize, place: usize) -> bool
    requires few { place < 32 }
    requires within { sent ≤ bytes }
    ensures { result ≡ true ↔ IsWhole size bytes sent place }
{
    sent == bytes || (place + 1).saturating_mul(size) <= sent
}

/// Closes the streams whose parts are written: how many are closed by then.
fn close_written<A: Allocator + Copy>(
    play: &mut Play<A>,
    bytes: usize,
    streams: usize,
    sent: usize,
    closed: usize,
) -> Result<usize, LocalFault>
    requires some { 0 < streams }
    requires few { streams ≤ 32 }
    requires within { sent ≤ bytes }
    ensures kept { Continues play.old play.new }
    ensures closes { IfOk result (λ count. Closes (part_size bytes streams) streams bytes sent closed count play.old play.new) }
    ensures begun { OnErr result (BeginsToClose (part_size bytes streams) bytes sent closed play.old play.new) }
    ensures why { IfErr result (StopsPlay play.new) }
{
    let size = part_size(bytes, streams);
    let mut count = closed;
    while count < streams && is_whole(size, bytes, sent, count) {
        close(play, closed, count - closed)?;
        count += 1;
    }
    Ok(count)
}

/// The client closes the stream of the part at the place that is this many after another.
fn close<A: Allocator + Copy>(
    play: &mut Play<A>,
    from: usize,
    after: usize,
) -> Result<(), LocalFault>
    requires { from + after < 32 }
    ensures kept { Continues play.old play.new }
    ensures taken { OnOk result (Takes (closing from after ∷ []) play.old play.new) }
    ensures begun { OnErr result (Begins (closing from after) play.old play.new) }
    ensures why { IfErr result (StopsPlay play.new) }
{
    let _told = play.pass(&Event::Close(Side::Client, stream_at(from + after)))?;
    Ok(())
}

/// Reads at the server what can be read of the stream of the part at this place, if it has not ended.
fn read_stream<A: Allocator + Copy>(play: &mut Play<A>, place: usize) -> Result<(), LocalFault>
    requires { place < 32 }
    ensures kept { Continues play.old play.new }
    ensures reads { OnOk result (ReadsOne place play.old play.new) }
    ensures begun { OnErr result (Begins (reading (stream_at place)) play.old play.new) }
    ensures why { IfErr result (StopsPlay play.new) }
{
    let stream = stream_at(place);
    if play.has_ended(stream) {
        return Ok(());
    }
    let _told = play.pass(&Event::Read(Side::Server, stream, MAX_READ))?;
    Ok(())
}

/// Reads at the server what can be read of each stream that has not ended.
fn read_streams<A: Allocator + Copy>(play: &mut Play<A>, streams: usize) -> Result<(), LocalFault>
    requires { streams ≤ 32 }
    ensures kept { Continues play.old play.new }
    ensures reads { OnOk result (Reads streams play.old play.new) }
    ensures begun { OnErr result (BeginsToRead streams play.old play.new) }
    ensures why { IfErr result (StopsPlay play.new) }
{
    for place in 0..streams {
        read_stream(play, place)?;
    }
    Ok(())
}

/// Whether the server has read the end of each stream.
fn have_ended<A: Allocator + Copy>(play: &Play<A>, streams: usize) -> bool
    requires some { 0 < streams }
    requires few { streams ≤ 32 }
    ensures told { result ≡ true ↔ HaveEnded streams play.now.world }
    ensures whole { result ≡ true → IsAllRead streams play.now.world }
    ensures run { Plays play.now.asked play.now.events play.now.world }
{
    for place in 0..streams {
        if !play.has_ended(stream_at(place)) {
            return false;
        }
    }
    true
}

/// How far the input is sent.
#[derive(Clone, Copy, Drop)]
struct Progress {
    /// How many of its bytes were written.
    sent: usize,
    /// How many of the streams were closed.
    closed: usize,
    /// The counts of Prepares.
    counts: Counts,
}

/// Each side once: the client writes, closes and sends, the server reads and sends. Whether every stream has ended.
fn take_turns<A: Allocator + Copy>(
    play: &mut Play<A>,
    input: &[u8],
    streams: usize,
    progress: &mut Progress,
) -> Result<bool, LocalFault>
    requires some { 0 < streams }
    requires few { streams ≤ 32 }
    requires within { progress.old.sent ≤ length input.now }
    requires counted { IsCounted play.old.asked.lose play.old.events progress.old.counts }
    ensures within { OnOk result (progress.new.sent ≤ length input.now) }
    ensures counted { OnOk result (IsCounted play.new.asked.lose play.new.events progress.new.counts) }
    ensures round { OnOk result (Round (part_size (length input.now) streams) streams input.now
        (reach_of progress.old) (reach_of progress.new) play.old play.new) }
    ensures begun { OnErr result (BeginsRound (part_size (length input.now) streams) streams input.now (reach_of progress.old) play.old play.new) }
    ensures over { IfOk result (λ done. done ≡ true ↔ IsOver streams (length input.now) (reach_of progress.new) play.new.world) }
    ensures sent { Sends (part_size (length input.now) streams) input.now progress.old.sent progress.new.sent play.old play.new }
    ensures done { IfOk result (λ done. done ≡ true → (progress.new.sent ≡ length input.now) × IsAllRead streams play.new.world) }
    ensures run { IfOk result (λ done. done ≡ true → Plays play.new.asked play.new.events play.new.world) }
    ensures more { OnOk result (play.old.events < play.new.events) }
    ensures room { OnOk result (play.old.events < most_events) }
    ensures why { IfErr result (StopsPlay play.new) }
{
    write_all(play, input, streams, &mut progress.sent)?;
    progress.closed = close_written(play, input.len(), streams, progress.sent, progress.closed)?;
    send_client(play, &mut progress.counts)?;
    read_streams(play, streams)?;
    send_server(play, &mut progress.counts)?;
    Ok(progress.sent == input.len() && have_ended(play, streams))
}

/// Sends each part of the input on a stream of its own, until every stream has ended at the server. The counts of
/// Prepares by then.
pub(crate) fn send_parts<A: Allocator + Copy>(
    play: &mut Play<A>,
    input: &[u8],
    streams: usize,
) -> Result<Counts, LocalFault>
    requires some { 0 < streams }
    requires few { streams ≤ 32 }
    requires blank { (k : ℕ) → written_on play.old.world k ≡ [] }
    ensures asked { play.new.asked ≡ play.old.asked }
    ensures sent { (sent : ℕ) × HasSent (part_size (length input.now) streams) input.now sent play.new.world }
    ensures run { OnOk result (Plays play.new.asked play.new.events play.new.world) }
    ensures scheduled { IfOk result (λ counts. Scheduled (part_size (length input.now) streams) streams input.now
        (LastRound counts.sent counts.returned (part_size (length input.now) streams) streams input.now) play.old play.new) }
    ensures counted { IfOk result (λ counts. IsCounted play.new.asked.lose play.new.events counts) }
    ensures delivered { OnOk result ((place : ℕ) → place < streams
        → read_on play.new.world (stream_at place) ≡ part_at (part_size (length input.now) streams) input.now place) }
    ensures why { IfErr result (StopsSending (part_size (length input.now) streams) streams input.now play.old play.new) }
{
    open_streams(play, streams)?;
    let mut progress = Progress {
        sent: 0,
        closed: 0,
        counts: Counts::none(),
    };
    'playing: loop {
        if take_turns(play, input, streams, &mut progress)? {
            return Ok(progress.counts);
        }
        if play.has_failed() {
            return Err(LocalFault::Failed);
        }
    }
}
