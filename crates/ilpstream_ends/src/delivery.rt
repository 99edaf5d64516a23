//! How the bytes that arrive on stream 1 are written to the output.

ghost use Rattle.std.specs.Prelude.{◌≡◌, ℕ, List, Option, true, OnOk, IfOk, IfErr};
ghost use Rattle.st_devices.specs.Tallies.{device_of, tally_of};
ghost use Rattle.st_receiver.specs.Decided.{got_seen};
ghost use Rattle.st_end.specs.State as state;
ghost use Rattle.st_streams.specs.declared.end_error.EndError.TheVariants as refusals;
ghost use Rattle.ilpstream_ends.specs.Keeping.{Delivers, Gives, IsOfDelivery, Kept, faults_reported};

use ilpstream_serving::TransferError;
use st_devices::Counting;
use st_end::{EndError, EndState, StreamId};
use st_file::{FileError, flush_all, write_piece};
use st_receiver::Got;
use std::alloc::Global;
use std::io::Write;

/// The stream that carries the file and the money.
pub(crate) const STREAM: StreamId = StreamId::FIRST;

/// The most bytes of one read.
const PIECE: usize = 65_536;

/// Whether more is to arrive on the stream.
#[derive(Clone, Copy)]
pub(crate) enum Delivered {
    More,
    /// All bytes are written, and flushed.
    Whole,
}

/// What can be read on stream 1 next: nothing yet if it is not open. Fails only with `NoMemory`, if memory is
/// refused.
fn next_of(end: &mut EndState<Global>) -> Result<Got<Global>, EndError>
    ensures gave { IfOk result (λ got. Gives end.old (got_seen got) end.new) }
    ensures refused { IfErr result (λ e. (e ≡ refusals.NoMemory) × (end.new ≡ end.old)) }
{
    match end.read(STREAM, PIECE) {
        Ok(got) => Ok(got),
        Err(EndError::NoStream) => Ok(Got::Nothing),
        Err(error) => Err(error),
    }
}

/// Reads all that can be read on stream 1, and writes it to the output and flushes it. `written` is the number of bytes
/// written so far. Each call of the stream or the writer uses up one of `turns`.
pub(crate) fn deliver<W: Write>(
    end: &mut EndState<Global>,
    writer: &mut Counting<W>,
    written: &mut u64,
    turns: &mut u64,
) -> Result<Delivered, TransferError>
    ensures kept { (start : state.EndState) (before : Option (List ℕ)) → Kept start before end.old (W.contents (device_of writer.old)) written.old → Delivers start before end.new (W.contents (device_of writer.new)) written.new result }
    ensures why { IfErr result IsOfDelivery }
    ensures flushed { OnOk result ((tally_of writer.new).flushed ≡ true) }
    ensures faults { (tally_of writer.new).faults ≡ faults_reported result (tally_of writer.old).faults }
{
    while *turns > 0 {
        *turns -= 1;
        match next_of(end) {
            Ok(Got::Bytes(bytes)) => match write_piece(writer, &bytes, *written, turns) {
                Ok(by_then) => *written = by_then,
                Err(error) => return Err(TransferError::File(error)),
            },
            Ok(Got::Nothing) => {
                return match flush_all(writer, *written, turns) {
                    Ok(()) => Ok(Delivered::More),
                    Err(error) => Err(TransferError::File(error)),
                };
            }
            Ok(Got::End) => {
                return match flush_all(writer, *written, turns) {
                    Ok(()) => Ok(Delivered::Whole),
                    Err(error) => Err(TransferError::File(error)),
                };
            }
            Ok(Got::Aborted(code)) => {
                return Err(TransferError::File(FileError::Aborted(code, *written)));
            }
            Err(error) => return Err(TransferError::End(error)),
        }
    }
    Err(TransferError::File(FileError::Turns(*written)))
}
