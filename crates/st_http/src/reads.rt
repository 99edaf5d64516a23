//! How a message is read from a stream, and written to it.

ghost use Rattle.std.specs.Prelude.{◌≡◌, [], OnOk, IfErr};
ghost use Rattle.std.specs.Io.KnownBytes.{Appends, Consumes};
ghost use Rattle.st_http.specs.Message.{Says, unfinished};
ghost use Rattle.st_http.specs.Progress.{IsWhole};
ghost use Rattle.st_http.specs.Reads.{ExplainsRead, ExplainsWrite, faults_reported};
ghost use Rattle.st_http.specs.declared.error.HttpError.TheVariants.{Turns};
ghost use Rattle.st_devices.specs.Tallies.{TakesTurns, device_of, tally_of};

use crate::error::HttpError;
use crate::reading::Reading;
use st_devices::{Counting, PutError, ReadTurn, put_all, read_turn};
use std::alloc::Allocator;
use std::io::{Read, Write};

/// The most bytes of one read.
const PIECE: usize = 4_096;

/// Reads one message from a stream, and no byte past it. Each read uses up one of `turns`.
///
/// Fails with `Turns` if none is left, `Cut` if the input ends early, `ReadFault` if a read fails, and with
/// what `Reading::feed` refuses.
pub fn read_message<S: Read, A: Allocator + Copy>(
    stream: &mut Counting<S>,
    reading: &mut Reading<'_, A>,
    turns: &mut u64,
) -> Result<(), HttpError>
    requires fresh { reading.old.taken ≡ [] }
    requires begun { Says reading.old.expected reading.old.taken reading.old.standing }
    requires open { reading.old.standing ≡ unfinished 1 }
    ensures expected { reading.new.expected ≡ reading.old.expected }
    ensures read { OnOk result (Consumes (S.remaining (device_of stream.old)) (S.remaining (device_of stream.new)) reading.new.taken) }
    ensures says { OnOk result (Says reading.new.expected reading.new.taken reading.new.standing) }
    ensures whole { OnOk result (IsWhole reading.new.standing) }
    ensures why { IfErr result (ExplainsRead reading.old.expected
        (record { before = S.remaining (device_of stream.old); after = S.remaining (device_of stream.new) })) }
    ensures faults { (tally_of stream.new).faults ≡ faults_reported result (tally_of stream.old).faults }
    ensures turns { TakesTurns (tally_of stream.old) (tally_of stream.new) turns.old turns.new }
    ensures out_of_turns { IfErr result (λ e. e ≡ Turns → turns.new ≡ 0) }
{
    let mut piece = [0; PIECE];
    'reads: loop {
        let wanted = reading.wants().min(PIECE);
        if wanted == 0 {
            return Ok(());
        }
        if *turns == 0 {
            return Err(HttpError::Turns);
        }
        *turns -= 1;
        let room = &mut piece[..wanted];
        match read_turn(stream, room) {
            ReadTurn::Bytes(n) => {
                if let Err(error) = reading.feed(&room[..n]) {
                    return Err(error);
                }
            }
            ReadTurn::End => return Err(HttpError::Cut),
            ReadTurn::Again => {}
            ReadTurn::Fault => return Err(HttpError::ReadFault),
        }
    }
}

/// Writes all bytes of a message to a stream. Each write uses up one of `turns`.
///
/// Fails with `WriteFault` if a write fails, and with `Turns` if none is left.
pub fn write_message<S: Write>(
    stream: &mut Counting<S>,
    text: &[u8],
    turns: &mut u64,
) -> Result<(), HttpError>
    ensures whole { OnOk result (Appends (S.contents (device_of stream.old)) (S.contents (device_of stream.new)) text.now) }
    ensures why { IfErr result (ExplainsWrite (S.contents (device_of stream.old)) (S.contents (device_of stream.new)) text.now) }
    ensures faults { (tally_of stream.new).faults ≡ faults_reported result (tally_of stream.old).faults }
    ensures turns { TakesTurns (tally_of stream.old) (tally_of stream.new) turns.old turns.new }
    ensures out_of_turns { IfErr result (λ e. e ≡ Turns → turns.new ≡ 0) }
{
    match put_all(stream, text, turns) {
        Ok(()) => Ok(()),
        Err(PutError::Fault(sent)) => Err(HttpError::WriteFault(sent)),
        Err(PutError::Turns(_)) => Err(HttpError::Turns),
    }
}
