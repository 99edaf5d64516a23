//! Single I/O calls of a counted device, and writing a whole text within a given number of calls.

ghost use Rattle.std.specs.Prelude.{◌≡◌, ◌≤◌, length, take, IfErr, OnOk};
ghost use Rattle.std.specs.Io.KnownBytes.{Appends};
ghost use Rattle.st_devices.specs.Tallies.{TakesTurns, device_of, tally_of};
ghost use Rattle.st_devices.specs.Turns.{DidFlush, DidRead, DidWrite, IsTurns, faults_after, sent};

use crate::counted::Counting;
use std::io::{ErrorKind, Read, Write};

/// The result of one read call.
#[derive(Clone, Copy, Debug, PartialEq, Eq)]
pub enum ReadTurn {
    /// This number of bytes was read: at least one if the buffer is not empty.
    Bytes(usize),
    /// The input has ended.
    End,
    /// The call was interrupted and read nothing. It is to be repeated.
    Again,
    /// The call failed. The device has counted the error.
    Fault,
}

/// The result of one write call.
#[derive(Clone, Copy, Debug, PartialEq, Eq)]
pub enum WriteTurn {
    /// This number of bytes was written. It may be 0.
    Moved(usize),
    /// The call was interrupted and wrote nothing. It is to be repeated.
    Again,
    /// The call failed. The device has counted the error.
    Fault,
}

/// The result of one flush call.
#[derive(Clone, Copy, Debug, PartialEq, Eq)]
pub enum FlushTurn {
    /// The flush succeeded.
    Done,
    /// The call was interrupted. It is to be repeated.
    Again,
    /// The call failed. The device has counted the error.
    Fault,
}

/// Makes one read call into `buf`.
pub fn read_turn<T: Read>(reader: &mut Counting<T>, buf: &mut [u8]) -> ReadTurn
    ensures { DidRead (T.remaining (device_of reader.old)) (T.remaining (device_of reader.new)) (tally_of reader.old) (tally_of reader.new) buf.new result }
{
    match reader.read(buf) {
        Ok(0) if !buf.is_empty() => ReadTurn::End,
        Ok(n) => ReadTurn::Bytes(n),
        Err(e) if e.kind() == ErrorKind::Interrupted => ReadTurn::Again,
        Err(_) => ReadTurn::Fault,
    }
}

/// Makes one write call with `buf`. It may write fewer bytes than `buf` has.
pub fn write_turn<T: Write>(writer: &mut Counting<T>, buf: &[u8]) -> WriteTurn
    ensures { DidWrite (T.contents (device_of writer.old)) (T.contents (device_of writer.new)) (tally_of writer.old) (tally_of writer.new) buf.now result }
{
    match writer.write(buf) {
        Ok(n) => WriteTurn::Moved(n),
        Err(e) if e.kind() == ErrorKind::Interrupted => WriteTurn::Again,
        Err(_) => WriteTurn::Fault,
    }
}

/// Makes one flush call.
pub fn flush_turn<T: Write>(writer: &mut Counting<T>) -> FlushTurn
    ensures { DidFlush (T.contents (device_of writer.old)) (T.contents (device_of writer.new)) (tally_of writer.old) (tally_of writer.new) result }
{
    match writer.flush() {
        Ok(()) => FlushTurn::Done,
        Err(e) if e.kind() == ErrorKind::Interrupted => FlushTurn::Again,
        Err(_) => FlushTurn::Fault,
    }
}

/// Why a text was not written whole, with the number of its bytes that were written.
#[derive(Clone, Copy, Debug, PartialEq, Eq)]
pub enum PutError {
    /// The writer failed. It has counted the error.
    Fault(usize),
    /// The permitted number of I/O calls was used up.
    Turns(usize),
}

/// Writes all of `text`, and repeats calls that wrote nothing or were interrupted. Each write call takes one of
/// `turns`.
///
/// Fails with `Fault` at the first error of the writer, and with `Turns` where `turns` is 0 before the text is written.
pub fn put_all<T: Write>(
    writer: &mut Counting<T>,
    text: &[u8],
    turns: &mut u64,
) -> Result<(), PutError>
    ensures whole { OnOk result (Appends (T.contents (device_of writer.old)) (T.contents (device_of writer.new)) text.now) }
    ensures part { IfErr result (λ e. (sent e ≤ length text.now)
        × Appends (T.contents (device_of writer.old)) (T.contents (device_of writer.new)) (take (sent e) text.now)) }
    ensures faults { (tally_of writer.new).faults ≡ faults_after result (tally_of writer.old).faults }
    ensures out_of_turns { IfErr result (λ e. IsTurns e → turns.new ≡ 0) }
    ensures turns { TakesTurns (tally_of writer.old) (tally_of writer.new) turns.old turns.new }
{
    let mut sent = 0;
    while sent < text.len() {
        if *turns == 0 {
            return Err(PutError::Turns(sent));
        }
        *turns -= 1;
        match write_turn(writer, &text[sent..]) {
            WriteTurn::Moved(n) => sent += n,
            WriteTurn::Again => {}
            WriteTurn::Fault => return Err(PutError::Fault(sent)),
        }
    }
    Ok(())
}
