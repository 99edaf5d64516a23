//! The input, read to its end.

ghost use Rattle.std.specs.Prelude.{◌≡◌, ◌≤◌, length, IfSome, IfOk, IfErr};
ghost use Rattle.st_devices.specs.Tallies.{TakesTurns, device_of, tally_of};
ghost use Rattle.ilpstream_local.specs.Errors.{fault_of, reader_faults};
ghost use Rattle.ilpstream_local.specs.Endings.{most_bytes, KeepsPiece, StopsRead};

use crate::fault::LocalFault;
use st_devices::{CountRead, ReadTurn, read_turn};
use std::alloc::Allocator;
use std::io::Read;

/// The most bytes of an input: 1 MiB.
pub const MAX_BYTES: usize = 1_048_576;

/// How many bytes are asked for at once.
const PIECE: usize = 4096;

/// Appends a chunk to the input, if that is not too long then.
fn keep<A: Allocator + Copy>(input: &mut Vec<u8, A>, piece: &[u8]) -> Result<(), LocalFault>
    requires { length input.old.items ≤ most_bytes }
    ensures { KeepsPiece input.old.items piece.now input.new.items result }
{
    if piece.len() > MAX_BYTES - input.len() {
        return Err(LocalFault::TooLong);
    }
    input.extend_from_slice(piece)?;
    Ok(())
}

/// Reads the input to its end. Each call of the reader takes one of `turns`.
pub(crate) fn read_input<A: Allocator + Copy, R: Read>(
    alloc: A,
    reader: &mut CountRead<R>,
    turns: &mut u64,
) -> Result<Vec<u8, A>, LocalFault>
    ensures read { IfOk result (λ input. IfSome (R.remaining (device_of reader.old)) (λ bytes. input.items ≡ bytes)) }
    ensures short { IfOk result (λ input. length input.items ≤ most_bytes) }
    ensures why { IfErr result (λ e. StopsRead (R.remaining (device_of reader.old)) turns.new e) }
    ensures faults { (tally_of reader.new).faults ≡ reader_faults (fault_of result) (tally_of reader.old).faults }
    ensures turns { TakesTurns (tally_of reader.old) (tally_of reader.new) turns.old turns.new }
{
    let mut input = Vec::new(alloc);
    let mut buf = [0; PIECE];
    while *turns > 0 {
        *turns -= 1;
        match read_turn(reader, &mut buf) {
            ReadTurn::Bytes(n) => keep(&mut input, &buf[..n])?,
            ReadTurn::End => return Ok(input),
            ReadTurn::Again => {}
            ReadTurn::Fault => return Err(LocalFault::Input),
        }
    }
    Err(LocalFault::Turns)
}
