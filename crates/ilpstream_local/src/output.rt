//! Writing to a writer that counts its calls and its errors.

ghost use Rattle.std.specs.Prelude.{◌≡◌, ◌⊎◌, IfErr, OnOk};
ghost use Rattle.std.specs.Io.KnownBytes.{Appends};
ghost use Rattle.st_devices.specs.Tallies.{TakesTurns, device_of, tally_of};
ghost use Rattle.ilpstream_local.specs.Errors.{fault_of, writer_faults};
ghost use Rattle.ilpstream_local.specs.Endings.{StopsWrite, TellsFault};
ghost use Rattle.ilpstream_output.specs.Endings.{StaysFlushed, WritesPart};

use crate::fault::LocalFault;
use crate::texts::fault_line;
use ilpstream_output::{Fault, say};
use st_devices::CountWrite;
use std::io::Write;

/// Writes a text whole and flushes, in at most `turns` I/O calls. Each call of the writer takes one of them.
pub(crate) fn put<W: Write>(
    writer: &mut CountWrite<W>,
    text: &[u8],
    turns: &mut u64,
) -> Result<(), LocalFault>
    ensures whole { OnOk result (Appends (W.contents (device_of writer.old)) (W.contents (device_of writer.new)) text.now) }
    ensures part { WritesPart text.now (W.contents (device_of writer.old)) (W.contents (device_of writer.new)) }
    ensures turns { TakesTurns (tally_of writer.old) (tally_of writer.new) turns.old turns.new }
    ensures faults { (tally_of writer.new).faults ≡ writer_faults (fault_of result) (tally_of writer.old).faults }
    ensures flushed { OnOk result (StaysFlushed (tally_of writer.old) (tally_of writer.new)) }
    ensures why { IfErr result (StopsWrite turns.new) }
{
    match ilpstream_output::put(writer, text, turns) {
        Ok(()) => Ok(()),
        Err(Fault::Turns) => Err(LocalFault::Turns),
        Err(Fault::Input | Fault::Output | Fault::NoMemory) => Err(LocalFault::Output),
    }
}

/// Reports a fault, as far as the writer accepts it. Returns the status of a fault.
pub(crate) fn tell_fault<E: Write>(errors: &mut CountWrite<E>, fault: LocalFault) -> u8
    ensures { TellsFault fault E.contents errors.old errors.new result }
{
    say(errors, fault_line(fault));
    1
}
