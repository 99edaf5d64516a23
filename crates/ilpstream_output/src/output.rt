//! How texts are written to a writer that counts its calls and its errors.

ghost use Rattle.std.specs.Prelude.{◌≡◌, ◌≢◌, Err, IfErr, OnOk, true};
ghost use Rattle.std.specs.Io.KnownBytes.{Appends, Keeps};
ghost use Rattle.st_devices.specs.Tallies.{TakesTurns, device_of, tally_of};
ghost use Rattle.ilpstream_output.specs.Endings.{Says, StaysFlushed, TellsFault, WritesPart, fault_of, writer_faults};

use crate::error::Fault;
use crate::texts::fault_line;
use st_devices::{CountWrite, FlushTurn, PutError, flush_turn, put_all};
use std::io::Write;

/// The most calls of its reader and its writer that a run makes, and then again of its writer for errors.
pub const TURNS: u64 = 2_147_483_647;

/// Flushes the writer. Each call takes one of `turns`.
fn flush<W: Write>(writer: &mut CountWrite<W>, turns: &mut u64) -> Result<(), Fault>
    ensures bytes { Keeps (W.contents (device_of writer.old)) (W.contents (device_of writer.new)) }
    ensures turns { TakesTurns (tally_of writer.old) (tally_of writer.new) turns.old turns.new }
    ensures faults { (tally_of writer.new).faults ≡ writer_faults (fault_of result) (tally_of writer.old).faults }
    ensures flushed { OnOk result ((tally_of writer.new).flushed ≡ true) }
    ensures out_of_turns { IfErr result (λ e. (e ≡ Fault.Turns) → turns.new ≡ 0) }
    ensures no_input { result ≢ Err Fault.Input }
    ensures no_memory { result ≢ Err Fault.NoMemory }
{
    while *turns > 0 {
        *turns -= 1;
        match flush_turn(writer) {
            FlushTurn::Done => return Ok(()),
            FlushTurn::Again => {}
            FlushTurn::Fault => return Err(Fault::Output),
        }
    }
    Err(Fault::Turns)
}

/// Writes all of a text and flushes the writer. Each call of the writer takes one of `turns`; an empty text takes none.
///
/// Fails with `Output` if the writer fails, and with `Turns` if no call is left.
pub fn put<W: Write>(writer: &mut CountWrite<W>, text: &[u8], turns: &mut u64) -> Result<(), Fault>
    ensures whole { OnOk result (Appends (W.contents (device_of writer.old)) (W.contents (device_of writer.new)) text.now) }
    ensures part { WritesPart text.now (W.contents (device_of writer.old)) (W.contents (device_of writer.new)) }
    ensures turns { TakesTurns (tally_of writer.old) (tally_of writer.new) turns.old turns.new }
    ensures faults { (tally_of writer.new).faults ≡ writer_faults (fault_of result) (tally_of writer.old).faults }
    ensures flushed { OnOk result (StaysFlushed (tally_of writer.old) (tally_of writer.new)) }
    ensures out_of_turns { IfErr result (λ e. (e ≡ Fault.Turns) → turns.new ≡ 0) }
    ensures no_input { result ≢ Err Fault.Input }
    ensures no_memory { result ≢ Err Fault.NoMemory }
{
    if text.is_empty() {
        return Ok(());
    }
    match put_all(writer, text, turns) {
        Ok(()) => flush(writer, turns),
        Err(PutError::Fault(_)) => Err(Fault::Output),
        Err(PutError::Turns(_)) => Err(Fault::Turns),
    }
}

/// Writes a text, as far as the writer accepts it. A failure is ignored.
pub fn say<E: Write>(errors: &mut CountWrite<E>, text: &str)
    ensures { Says text.now E.contents errors.old errors.new }
{
    let mut turns = TURNS;
    let _ = put(errors, text.as_bytes(), &mut turns);
}

/// Writes the line of a fault, as far as the writer accepts it. Returns the exit status of a fault, 1.
pub fn tell_fault<E: Write>(errors: &mut CountWrite<E>, fault: Fault) -> u8
    ensures { TellsFault fault E.contents errors.old errors.new result }
{
    say(errors, fault_line(fault));
    1
}
