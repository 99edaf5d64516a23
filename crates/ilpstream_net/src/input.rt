//! How the whole input is read.

ghost use Rattle.std.specs.Prelude.{◌≡◌, ◌⊎◌, IfErr, IfOk, IfSome};
ghost use Rattle.st_devices.specs.Tallies.{device_of, tally_of};
ghost use Rattle.ilpstream_output.specs.Endings.{fault_of, reader_faults};
ghost use Rattle.st_devices.specs.Faults.{count_after};
ghost use Rattle.ilpstream_output.specs.declared.error.Fault.TheVariants.{Input, NoMemory};
ghost use Rattle.ilpstream_net.specs.Input.{FailsToRead, ReadsOn};

use ilpstream_output::{Fault, TURNS};
use st_devices::{CountRead, ReadTurn, read_turn};
use std::alloc::Global;
use std::io::Read;

/// The number of bytes that one read asks for.
const PIECE: usize = 4096;

/// Appends the bytes of one read. True if the input is at its end.
fn read_more<R: Read>(reader: &mut CountRead<R>, bytes: &mut Vec<u8>) -> Result<bool, Fault>
    ensures more { IfOk result (ReadsOn (R.remaining (device_of reader.old)) (R.remaining (device_of reader.new)) bytes.old.items bytes.new.items) }
    ensures faults { (tally_of reader.new).faults ≡ reader_faults (fault_of result) (tally_of reader.old).faults }
    ensures call { (tally_of reader.new).calls ≡ count_after 1 (tally_of reader.old).calls }
    ensures why { IfErr result (λ e. (e ≡ Input) ⊎ (e ≡ NoMemory)) }
{
    let mut buf = [0; PIECE];
    match read_turn(reader, &mut buf) {
        ReadTurn::Again => Ok(false),
        ReadTurn::Fault => Err(Fault::Input),
        ReadTurn::End => Ok(true),
        ReadTurn::Bytes(n) => {
            bytes.extend_from_slice(&buf[..n])?;
            Ok(false)
        }
    }
}

/// The input to its end, by at most 2^31 - 1 reads.
pub(crate) fn read_whole<R: Read>(
    alloc: Global,
    reader: &mut CountRead<R>,
) -> Result<Vec<u8>, Fault>
    ensures whole { IfOk result (λ bytes. IfSome (R.remaining (device_of reader.old)) (λ all. bytes.items ≡ all)) }
    ensures faults { (tally_of reader.new).faults ≡ reader_faults (fault_of result) (tally_of reader.old).faults }
    ensures why { IfErr result (λ e. FailsToRead e (tally_of reader.old) (tally_of reader.new)) }
{
    let mut bytes = Vec::new(alloc);
    for _ in 0..TURNS {
        if read_more(reader, &mut bytes)? {
            return Ok(bytes);
        }
    }
    Err(Fault::Turns)
}
