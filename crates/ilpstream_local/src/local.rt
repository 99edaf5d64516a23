//! The command `local`: sends the input over a chain in memory, and writes what was read at its end.

ghost use Rattle.std.specs.Prelude.{◌≡◌, ◌⊎◌, ◌<◌, ◌≤◌, ◌^◌, ℕ, [], length, Some, IfErr, IfSome, OnOk};
ghost use Rattle.std.specs.Io.KnownBytes.{Appends};
ghost use Rattle.st_devices.specs.Tallies.{TakesTurns, device_of, tally_of};
ghost use Rattle.ilpstream_local.specs.Errors.{fault_of, reader_faults, writer_faults};
ghost use Rattle.ilpstream_local.specs.Parts.{joined, stream_at};
ghost use Rattle.ilpstream_local.specs.Playing.{read_on, written_on};
ghost use Rattle.ilpstream_local.specs.Schedule.{start};
ghost use Rattle.ilpstream_local.specs.Endings.{ComesBefore, Explains, GoesOver, HasEnded, RunsLocal, StopsCarry, StopsWrite, most_bytes};
ghost use Rattle.ilpstream_output.specs.Endings.{SpendsTurns, StaysFlushed, WritesPart};

use crate::fault::LocalFault;
use crate::input::read_input;
use crate::output::{put, tell_fault};
use crate::parts::stream_at;
use crate::play::Play;
use crate::sends::{LocalSends, sends_of};
use crate::streams::send_parts;
use ilpstream_output::TURNS;
use ilpstream_settings::LocalSettings;
use st_devices::{CountRead, CountWrite};
use std::alloc::Allocator;
use std::io::{Read, Write};

/// Writes what was read of each stream, in their order.
fn put_parts<A: Allocator + Copy, W: Write>(
    play: &Play<A>,
    streams: usize,
    writer: &mut CountWrite<W>,
    turns: &mut u64,
) -> Result<(), LocalFault>
    requires { streams ≤ 32 }
    ensures whole { OnOk result (Appends (W.contents (device_of writer.old)) (W.contents (device_of writer.new))
        (joined (λ place. read_on play.now.world (stream_at place)) streams)) }
    ensures part { WritesPart (joined (λ place. read_on play.now.world (stream_at place)) streams)
        (W.contents (device_of writer.old)) (W.contents (device_of writer.new)) }
    ensures faults { (tally_of writer.new).faults ≡ writer_faults (fault_of result) (tally_of writer.old).faults }
    ensures flushed { OnOk result (StaysFlushed (tally_of writer.old) (tally_of writer.new)) }
    ensures turns { TakesTurns (tally_of writer.old) (tally_of writer.new) turns.old turns.new }
    ensures why { IfErr result (StopsWrite turns.new) }
{
    for place in 0..streams {
        put(writer, play.read_on(stream_at(place)), turns)?;
    }
    Ok(())
}

/// Sends an input over a chain on which nothing was written yet, and writes what was read at its end.
fn carry_over<A: Allocator + Copy, W: Write>(
    play: &mut Play<A>,
    input: &[u8],
    writer: &mut CountWrite<W>,
    turns: &mut u64,
    sends: &mut LocalSends,
) -> Result<(), LocalFault>
    requires some { 0 < play.old.asked.streams }
    requires few { play.old.asked.streams ≤ 32 }
    requires start { play.old ≡ start play.old.asked }
    requires blank { (k : ℕ) → written_on play.old.world k ≡ [] }
    ensures over { OnOk result (GoesOver play.old.asked (Some input.now) sends.new) }
    ensures whole { OnOk result (Appends (W.contents (device_of writer.old)) (W.contents (device_of writer.new)) input.now) }
    ensures part { WritesPart input.now (W.contents (device_of writer.old)) (W.contents (device_of writer.new)) }
    ensures faults { (tally_of writer.new).faults ≡ writer_faults (fault_of result) (tally_of writer.old).faults }
    ensures flushed { OnOk result (StaysFlushed (tally_of writer.old) (tally_of writer.new)) }
    ensures turns { TakesTurns (tally_of writer.old) (tally_of writer.new) turns.old turns.new }
    ensures why { IfErr result (StopsCarry play.old.asked (Some input.now) turns.new) }
    ensures untouched { IfErr result (λ e. ComesBefore e → writer.new ≡ writer.old) }
{
    let streams = play.streams();
    match send_parts(play, input, streams) {
        Ok(counts) => {
            *sends = sends_of(play, input.len(), counts);
            put_parts(play, streams, writer, turns)
        }
        Err(fault) => Err(fault),
    }
}

/// Sends an input over a chain of hops in memory, as the settings say, and writes what was read at its end.
fn carry<A: Allocator + Copy, W: Write>(
    alloc: A,
    settings: &LocalSettings,
    input: &[u8],
    writer: &mut CountWrite<W>,
    turns: &mut u64,
    sends: &mut LocalSends,
) -> Result<(), LocalFault>
    requires hops { settings.now.hops ≤ 8 }
    requires some { 0 < settings.now.streams }
    requires streams { settings.now.streams ≤ 32 }
    ensures over { OnOk result (GoesOver settings.now (Some input.now) sends.new) }
    ensures whole { OnOk result (Appends (W.contents (device_of writer.old)) (W.contents (device_of writer.new)) input.now) }
    ensures part { WritesPart input.now (W.contents (device_of writer.old)) (W.contents (device_of writer.new)) }
    ensures faults { (tally_of writer.new).faults ≡ writer_faults (fault_of result) (tally_of writer.old).faults }
    ensures flushed { OnOk result (StaysFlushed (tally_of writer.old) (tally_of writer.new)) }
    ensures turns { TakesTurns (tally_of writer.old) (tally_of writer.new) turns.old turns.new }
    ensures why { IfErr result (StopsCarry settings.now (Some input.now) turns.new) }
    ensures untouched { IfErr result (λ e. ComesBefore e → writer.new ≡ writer.old) }
{
    let Ok(mut play) = Play::new(alloc, settings) else {
        return Err(LocalFault::NoMemory);
    };
    carry_over(&mut play, input, writer, turns, sends)
}

/// Sends the reader's bytes over a chain of hops in memory, and writes what was read at its end. The settings have 1 to
/// 32 streams and at most 8 hops. The bytes are cut into as many consecutive parts as there are streams. The parts have
/// one size, except that the last ones may be shorter; each is sent on its own stream. The settings also say of how
/// many Prepares of the client one is lost. Each I/O call takes one of `turns`.
///
/// Nothing is written before every stream has ended: at each fault but `Output` and `Turns` the writer is as it was.
/// Fails with a `LocalFault`: `Input` or `Output` exactly if the reader or the writer counted an error in this call,
/// and `Turns` only if no I/O call is left. If it ends well, `sends` has the numbers of its Prepares.
pub fn play_local<A: Allocator + Copy, R: Read, W: Write>(
    alloc: A,
    settings: &LocalSettings,
    reader: &mut CountRead<R>,
    writer: &mut CountWrite<W>,
    turns: &mut u64,
    sends: &mut LocalSends,
) -> Result<(), LocalFault>
    requires hops { settings.now.hops ≤ 8 }
    requires some { 0 < settings.now.streams }
    requires streams { settings.now.streams ≤ 32 }
    ensures whole { OnOk result (IfSome (R.remaining (device_of reader.old)) (λ bytes.
        Appends (W.contents (device_of writer.old)) (W.contents (device_of writer.new)) bytes × (length bytes ≤ most_bytes))) }
    ensures part { IfSome (R.remaining (device_of reader.old)) (λ bytes.
        WritesPart bytes (W.contents (device_of writer.old)) (W.contents (device_of writer.new))) }
    ensures over { OnOk result (GoesOver settings.now (R.remaining (device_of reader.old)) sends.new) }
    ensures why { IfErr result (Explains settings.now (R.remaining (device_of reader.old))) }
    ensures untouched { IfErr result (λ e. ComesBefore e → writer.new ≡ writer.old) }
    ensures reader_faults { (tally_of reader.new).faults ≡ reader_faults (fault_of result) (tally_of reader.old).faults }
    ensures writer_faults { (tally_of writer.new).faults ≡ writer_faults (fault_of result) (tally_of writer.old).faults }
    ensures flushed { OnOk result (StaysFlushed (tally_of writer.old) (tally_of writer.new)) }
    ensures out_of_turns { IfErr result (λ e. (e ≡ LocalFault.Turns) → turns.new ≡ 0) }
    ensures turns { SpendsTurns (tally_of reader.old) (tally_of reader.new) (tally_of writer.old) (tally_of writer.new) turns.old turns.new }
{
    let input = read_input(alloc, reader, turns)?;
    carry(alloc, settings, &input, writer, turns, sends)
}

/// The command `local`: calls `play_local`, and writes the number of its error to `errors`. The status is 0 if
/// everything was written, otherwise 1. It makes at most `TURNS` calls of the reader and the writer. The settings have
/// 1 to 32 streams and at most 8 hops.
pub fn run_local<A: Allocator + Copy, R: Read, W: Write, E: Write>(
    alloc: A,
    settings: &LocalSettings,
    reader: &mut CountRead<R>,
    writer: &mut CountWrite<W>,
    errors: &mut CountWrite<E>,
) -> u8
    requires hops { settings.now.hops ≤ 8 }
    requires some { 0 < settings.now.streams }
    requires streams { settings.now.streams ≤ 32 }
    ensures { RunsLocal settings.now (R.remaining (device_of reader.old)) (W.contents (device_of writer.old)) (W.contents (device_of writer.new))
        (HasEnded (tally_of reader.old) (tally_of reader.new) (tally_of writer.old) (tally_of writer.new))
        E.contents errors.old errors.new result }
{
    let mut turns = TURNS;
    let mut sends = LocalSends::none();
    match play_local(alloc, settings, reader, writer, &mut turns, &mut sends) {
        Ok(()) => 0,
        Err(fault) => tell_fault(errors, fault),
    }
}
