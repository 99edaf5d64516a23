//! How the bytes of a reader are moved to a sink.

ghost use Rattle.std.specs.Prelude.{◌≡◌, ◌<◌, IfOk, IfErr, IsOk};
ghost use Rattle.st_file.specs.Errors.{IsTurns, faults_reported};
ghost use Rattle.st_file.specs.Sends.{ExplainsSend, PutsEnd, PutsNext, PutsPiece, ReadsPiece, SentAll};
ghost use Rattle.st_file.specs.Spending.{SpendsTurns, TakesAsks};
ghost use Rattle.st_devices.specs.Tallies.{TakesTurns, device_of, tally_of};

use crate::error::FileError;
use crate::sink::{Put, Sink};
use st_devices::{Counting, ReadTurn, read_turn};
use std::alloc::Allocator;
use std::io::Read;

/// The most bytes of one read and of one chunk: those of the longest chunk that a ring accepts.
pub const PIECE: usize = 4_096;

/// The next chunk of a reader, which is empty only at the reader's end. Its memory is allocated before the read, so
/// that no byte is lost if memory is refused.
fn read_piece<R: Read, A: Allocator + Copy>(
    alloc: A,
    reader: &mut Counting<R>,
    sent: u64,
    turns: &mut u64,
) -> Result<Vec<u8, A>, FileError>
    ensures read { ReadsPiece sent (R.remaining (device_of reader.old)) (R.remaining (device_of reader.new)) result }
    ensures faults { (tally_of reader.new).faults ≡ faults_reported result (tally_of reader.old).faults }
    ensures turns { TakesTurns (tally_of reader.old) (tally_of reader.new) turns.old turns.new }
    ensures fewer { IsOk result → turns.new < turns.old }
    ensures out_of_turns { IfErr result (λ e. IsTurns e → turns.new ≡ 0) }
{
    let Ok(mut piece) = vec![in alloc; 0u8; PIECE] else {
        return Err(FileError::NoMemory(sent));
    };
    while *turns > 0 {
        *turns -= 1;
        match read_turn(reader, &mut piece) {
            ReadTurn::Bytes(n) => {
                piece.truncate(n);
                return Ok(piece);
            }
            ReadTurn::End => {
                piece.clear();
                return Ok(piece);
            }
            ReadTurn::Again => {}
            ReadTurn::Fault => return Err(FileError::ReadFault(sent)),
        }
    }
    Err(FileError::Turns(sent))
}

/// Puts a chunk into a sink, and tries again if it is refused. Returns how many bytes are sent then.
fn put_piece<K: Sink<Vec<u8, A>>, A: Allocator + Copy>(
    sink: &mut K,
    piece: Vec<u8, A>,
    sent: u64,
    turns: &mut u64,
) -> Result<u64, FileError>
    ensures put { PutsPiece sent (K.taken sink.old) (K.taken sink.new) piece.items result }
    ensures turns { TakesAsks (K.taken sink.old).calls (K.taken sink.new).calls turns.old turns.new }
    ensures out_of_turns { IfErr result (λ e. IsTurns e → turns.new ≡ 0) }
{
    let by_then = sent.saturating_add(piece.len() as u64);
    let mut chunk = piece;
    while *turns > 0 {
        *turns -= 1;
        match sink.put(chunk) {
            Put::Taken => return Ok(by_then),
            Put::Again(back) => chunk = back,
            Put::Closed(_) => return Err(FileError::Closed(sent)),
        }
    }
    Err(FileError::Turns(sent))
}

/// Ends a sink, and tries again if that is refused.
fn put_end<K: Sink<Vec<u8, A>>, A: Allocator + Copy>(
    sink: &mut K,
    sent: u64,
    turns: &mut u64,
) -> Result<(), FileError>
    ensures put { PutsEnd sent (K.taken sink.old) (K.taken sink.new) result }
    ensures turns { TakesAsks (K.taken sink.old).calls (K.taken sink.new).calls turns.old turns.new }
    ensures out_of_turns { IfErr result (λ e. IsTurns e → turns.new ≡ 0) }
{
    while *turns > 0 {
        *turns -= 1;
        match sink.end() {
            Put::Taken => return Ok(()),
            Put::Again(()) => {}
            Put::Closed(()) => return Err(FileError::Closed(sent)),
        }
    }
    Err(FileError::Turns(sent))
}

/// Puts a chunk into a sink, or ends the sink if the chunk is empty. Returns how many bytes are sent then, or `None`
/// after the end.
fn put_next<K: Sink<Vec<u8, A>>, A: Allocator + Copy>(
    sink: &mut K,
    piece: Vec<u8, A>,
    sent: u64,
    turns: &mut u64,
) -> Result<Option<u64>, FileError>
    ensures put { PutsNext sent (K.taken sink.old) (K.taken sink.new) piece.items result }
    ensures turns { TakesAsks (K.taken sink.old).calls (K.taken sink.new).calls turns.old turns.new }
    ensures out_of_turns { IfErr result (λ e. IsTurns e → turns.new ≡ 0) }
{
    if piece.is_empty() {
        put_end(sink, sent, turns)?;
        return Ok(None);
    }
    Ok(Some(put_piece(sink, piece, sent, turns)?))
}

/// Moves all bytes of a reader to a sink, in chunks of at most `PIECE` bytes, and then ends the sink. Returns how many
/// bytes the sink accepted. Each call of the reader or the sink uses up one of `turns`.
///
/// Fails with `ReadFault` if a read fails and with `NoMemory` if memory is refused: the sink then accepted each byte
/// that was read. Fails with `Turns` if no call is left, and with `Closed` if the sink accepts no more: the
/// last chunk that was read may then be lost. Each error carries the number of bytes that the sink accepted.
pub fn send_all<R: Read, K: Sink<Vec<u8, A>>, A: Allocator + Copy>(
    alloc: A,
    reader: &mut Counting<R>,
    sink: &mut K,
    turns: u64,
) -> Result<u64, FileError>
    ensures all { IfOk result (SentAll
        (record { before = R.remaining (device_of reader.old); after = R.remaining (device_of reader.new); old = K.taken sink.old; new = K.taken sink.new })) }
    ensures why { IfErr result (ExplainsSend
        (record { before = R.remaining (device_of reader.old); after = R.remaining (device_of reader.new); old = K.taken sink.old; new = K.taken sink.new })) }
    ensures faults { (tally_of reader.new).faults ≡ faults_reported result (tally_of reader.old).faults }
    ensures turns { SpendsTurns result (tally_of reader.old) (tally_of reader.new) (K.taken sink.old).calls (K.taken sink.new).calls turns }
{
    let mut left = turns;
    let mut sent = 0;
    loop {
        let piece = read_piece(alloc, reader, sent, &mut left)?;
        match put_next(sink, piece, sent, &mut left)? {
            Some(more) => sent = more,
            None => return Ok(sent),
        }
    }
}
