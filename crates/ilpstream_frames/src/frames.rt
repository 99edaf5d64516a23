//! The command `frames`: it reads lines of hexadecimal digits, and writes refusals and the longest run of each stream.

ghost use Rattle.std.specs.Prelude.{◌≡◌, ◌≢◌, ◌||◌, true, false, is_some, take, ◌+◌, ◌^◌, ◌<◌, ◌≤◌, ◌++◌, ◌∷◌, ◌==◌, [], ℕ, List, Option, OnOk, OnErr, IfOk, IfErr, IfSome, length, slice_index_or, slice_set, None};
ghost use Rattle.std.specs.Io.KnownBytes.{Appends};
ghost use Rattle.std.specs.List.{All};
ghost use Rattle.std.specs.Str.Lines.{strip_carriage_return};
ghost use Rattle.st_devices.specs.Faults.{count_after};
ghost use Rattle.st_devices.specs.Tallies.{TakesTurns, device_of, tally_of};
ghost use Rattle.st_frames.specs.Reading.{packet_at};
ghost use Rattle.ilpstream_frames.specs.Answers.{by_packet, prepare};
ghost use Rattle.ilpstream_frames.specs.Endings.{has_refusal, BeginsAnswer, RunsFrames, WritesAnswer};
ghost use Rattle.ilpstream_output.specs.Endings.{fault_of, reader_faults, writer_faults, HasEnded, SpendsTurns, StaysFlushed, WritesPart};
ghost use Rattle.ilpstream_frames.specs.Inboxes.{run_line, runs_text};
ghost use Rattle.ilpstream_frames.specs.LineSoFar.{StandsFor, no_line, text_of_line};
ghost use Rattle.ilpstream_frames.specs.Progress.{at_start, told, HasPacketEffect, HasEffect, AnswersLine, AnswersPiece, MayBegin, MayFollow, Covers, CoversLines, AfterTurn, SaysMore};

use crate::digits::{decode, without_return};
use crate::error::LineError;
use crate::line::{LineEnd, LineSoFar};
use crate::streams::Streams;
use crate::texts::{refused_line, stream_line};
use ilpstream_output::{Fault, TURNS, put, tell_fault};
use memchr::memchr;
use st_devices::{CountRead, CountWrite, ReadTurn, read_turn};
use std::alloc::{AllocError, Allocator};
use std::io::{Read, Write};
use std::marker::Model;

/// The number of bytes that one read asks for.
const PIECE: usize = 65_536;

/// Whether a line was refused, once all lines were read.
#[derive(Clone, Copy, PartialEq, Eq)]
pub enum Lines {
    /// Each line that is not empty was accepted.
    AllTaken,
    /// At least one line was refused.
    SomeRefused,
}

/// The lines so far: the one that is being read with its index, the streams before it, and whether one was refused.
#[derive(Drop)]
struct Reader<A: Allocator + Copy> {
    line: LineSoFar<A>,
    index: u64,
    streams: Streams<A>,
    refused: bool,
    alloc: A,
}

impl<A: Allocator + Copy> Model for Reader<A> {
    ghost use Rattle.ilpstream_frames.specs.Progress.{State};

    ghost Value = { State };

    ghost use Rattle.std.specs.Coded.{codes};
    ghost use Rattle.std.specs.FinMap as fmap;

    ghost coded = { Prim.hlevel (codes, fmap.code) };

    ghost view = { λ s. record { line = s.line; index = s.index; inboxes = s.streams; refused = s.refused } };
}

impl<A: Allocator + Copy> Reader<A> {
    fn new(alloc: A) -> Result<Reader<A>, AllocError>
        ensures { IfOk result (λ s. s ≡ at_start) }
    {
        let streams = Streams::new(alloc)?;
        Ok(Reader {
            line: LineSoFar::new(alloc),
            index: 1,
            streams,
            refused: false,
            alloc,
        })
    }

    /// Accepts a packet, or says why it is refused.
    fn take_packet(&mut self, bytes: &[u8]) -> Option<LineError>
        ensures effect { HasPacketEffect self.old.inboxes (by_packet (packet_at prepare bytes.now)) result self.new.inboxes }
        ensures rest { (self.new.index ≡ self.old.index) × (self.new.refused ≡ self.old.refused) }
    {
        match self.streams.take_packet(bytes) {
            Ok(()) => None,
            Err(error) => Some(error),
        }
    }

    /// Accepts the line's packet, or says why it is refused.
    fn answer(&mut self, end: LineEnd) -> Result<Option<LineError>, AllocError>
        ensures effect { IfOk result (λ refusal. (line : List ℕ) → StandsFor self.old.line line
            → HasEffect self.old.inboxes (text_of_line end line) refusal self.new.inboxes) }
        ensures rest { (self.new.index ≡ self.old.index) × (self.new.refused ≡ self.old.refused) }
    {
        if self.line.is_empty(end) {
            return Ok(None);
        }
        match self.line.bytes(end)? {
            Ok(bytes) => Ok(self.take_packet(&bytes)),
            Err(error) => Ok(Some(error)),
        }
    }

    /// Appends what a refused line prints.
    fn tell(&mut self, out: &mut Vec<u8, A>, refusal: Option<LineError>) -> Result<(), AllocError>
        ensures told { OnOk result (out.new.items ≡ out.old.items ++ told self.old.index refusal) }
        ensures unchanged { OnErr result (out.new.items ≡ out.old.items) }
        ensures noted { OnOk result (self.new ≡ record self.old { refused = self.old.refused || is_some refusal }) }
    {
        let Some(error) = refusal else {
            return Ok(());
        };
        let text = refused_line(self.alloc, self.index, error)?;
        out.extend_from_slice(text.as_bytes())?;
        self.refused = true;
        Ok(())
    }

    /// Answers the line, and begins the next.
    fn end_line(&mut self, out: &mut Vec<u8, A>, end: LineEnd) -> Result<(), AllocError>
        requires { self.old.index + 1 < 2 ^ 64 }
        ensures answered { OnOk result ((said : List ℕ) × (out.new.items ≡ out.old.items ++ said)
            × ((line : List ℕ) → StandsFor self.old.line line → AnswersLine self.old (text_of_line end line) said self.new)) }
        ensures unchanged { OnErr result (out.new.items ≡ out.old.items) }
        ensures next { OnOk result ((self.new.line ≡ no_line) × (self.new.index ≡ self.old.index + 1)) }
    {
        let refusal = self.answer(end)?;
        self.tell(out, refusal)?;
        self.next_line();
        Ok(())
    }

    fn next_line(&mut self)
        requires { self.old.index + 1 < 2 ^ 64 }
        ensures { self.new ≡ record self.old { line = no_line; index = self.old.index + 1 } }
    {
        self.line.clear();
        self.index += 1;
    }

    /// Takes the text of a line that no byte was read of before, or says why it is refused.
    fn answer_text(&mut self, text: &[u8]) -> Result<Option<LineError>, AllocError>
        ensures effect { IfOk result (λ refusal. HasEffect self.old.inboxes text.now refusal self.new.inboxes) }
        ensures rest { (self.new.index ≡ self.old.index) × (self.new.refused ≡ self.old.refused) }
    {
        if text.is_empty() {
            return Ok(None);
        }
        match decode(self.alloc, text)? {
            Some(bytes) => Ok(self.take_packet(&bytes)),
            None => Ok(Some(LineError::NotHex)),
        }
    }

    /// Answers a line that one read gave whole, and begins the next.
    fn take_line(&mut self, out: &mut Vec<u8, A>, line: &[u8]) -> Result<(), AllocError>
        requires { self.old.index + 1 < 2 ^ 64 }
        ensures answered { OnOk result (SaysMore out.old.items out.new.items (λ said. AnswersLine self.old (strip_carriage_return line.now) said self.new)) }
        ensures unchanged { OnErr result (out.new.items ≡ out.old.items) }
        ensures next { OnOk result ((self.new.line ≡ no_line) × (self.new.index ≡ self.old.index + 1)) }
    {
        let refusal = self.answer_text(without_return(line))?;
        self.tell(out, refusal)?;
        self.next_line();
        Ok(())
    }

    /// Appends bytes of the line.
    fn extend(&mut self, bytes: &[u8]) -> Result<(), AllocError>
        requires bytes { All (λ b. (b == 10) ≡ false) bytes.now }
        requires count { self.old.line.count + length bytes.now < 2 ^ 64 }
        ensures answered { OnOk result (AnswersPiece self.old bytes.now [] self.new) }
        ensures same { self.new.index ≡ self.old.index }
        ensures bounded { OnOk result (self.new.line.count ≤ self.old.line.count + length bytes.now) }
    {
        self.line.extend(bytes)?;
        Ok(())
    }

    /// Takes the last bytes of the line and its newline.
    fn end_with(&mut self, out: &mut Vec<u8, A>, last: &[u8]) -> Result<(), AllocError>
        requires last { All (λ b. (b == 10) ≡ false) last.now }
        requires budget { self.old.index + self.old.line.count + length last.now + 1 < 2 ^ 64 }
        ensures answered { OnOk result (SaysMore out.old.items out.new.items (λ said. AnswersPiece self.old (last.now ++ 10 ∷ []) said self.new)) }
        ensures unchanged { OnErr result (out.new.items ≡ out.old.items) }
        ensures next { OnOk result ((self.new.line ≡ no_line) × (self.new.index ≡ self.old.index + 1)) }
    {
        if self.line.is_fresh() {
            self.take_line(out, last)?;
            return Ok(());
        }
        self.extend(last)?;
        self.end_line(out, LineEnd::Newline)?;
        Ok(())
    }

    /// Reads the bytes up to the first newline with it, or all of them if there is none. Returns how many it read.
    fn take_part(&mut self, out: &mut Vec<u8, A>, bytes: &[u8]) -> Result<usize, AllocError>
        requires some { 0 < length bytes.now }
        requires budget { self.old.index + self.old.line.count + length bytes.now < 2 ^ 64 }
        ensures answered { IfOk result (λ n. SaysMore out.old.items out.new.items (λ said. AnswersPiece self.old (take n bytes.now) said self.new)) }
        ensures unchanged { OnErr result (out.new.items ≡ out.old.items) }
        ensures taken { IfOk result (λ n. (0 < n) × (n ≤ length bytes.now)) }
        ensures bounded { IfOk result (λ n. self.new.index + self.new.line.count ≤ self.old.index + self.old.line.count + n) }
    {
        match memchr(b'\n', bytes) {
            Some(place) => {
                self.end_with(out, &bytes[..place])?;
                Ok(place + 1)
            }
            None => {
                self.extend(bytes)?;
                Ok(bytes.len())
            }
        }
    }

    /// Reads a chunk of the input, and appends what it makes known.
    fn feed(&mut self, out: &mut Vec<u8, A>, piece: &[u8]) -> Result<(), AllocError>
        requires { self.old.index + self.old.line.count + length piece.now < 2 ^ 64 }
        ensures answered { OnOk result ((said : List ℕ) × (out.new.items ≡ out.old.items ++ said) × AnswersPiece self.old piece.now said self.new) }
        ensures part { (said : List ℕ) × (out.new.items ≡ out.old.items ++ said) × ((left : List ℕ) → MayBegin self.old (piece.now ++ left) said) }
        ensures bounded { OnOk result (self.new.index + self.new.line.count ≤ self.old.index + self.old.line.count + length piece.now) }
    {
        let mut from = 0;
        while from < piece.len() {
            from += self.take_part(out, &piece[from..])?;
        }
        Ok(())
    }

    /// Takes the end of the input.
    fn finish(&mut self, out: &mut Vec<u8, A>) -> Result<(), AllocError>
        requires { self.old.index + 1 < 2 ^ 64 }
        ensures answered { OnOk result ((said : List ℕ) × (out.new.items ≡ out.old.items ++ said)
            × ((line : List ℕ) → StandsFor self.old.line line → MayFollow self.old line [] (said ++ runs_text self.new.inboxes) self.new.refused)) }
        ensures part { (said : List ℕ) × (out.new.items ≡ out.old.items ++ said) × MayBegin self.old [] said }
    {
        if self.line.is_empty(LineEnd::InputEnd) {
            return Ok(());
        }
        self.end_line(out, LineEnd::InputEnd)?;
        Ok(())
    }
}

/// One read, and what it makes known written. Whether that was the end.
fn turn<A: Allocator + Copy, R: Read, W: Write>(
    lines: &mut Reader<A>,
    reader: &mut CountRead<R>,
    writer: &mut CountWrite<W>,
    turns: &mut u64,
    buf: &mut [u8; PIECE],
) -> Result<bool, Fault>
    requires { lines.old.index + lines.old.line.count < 2 ^ 63 }
    ensures covers { (input before : Option (List ℕ)) → Covers input (R.remaining (device_of reader.old)) before (W.contents (device_of writer.old)) lines.old
        → IfOk result (λ is_end. AfterTurn is_end input (R.remaining (device_of reader.new)) before (W.contents (device_of writer.new)) lines.new) }
    ensures part { (input before : Option (List ℕ)) → Covers input (R.remaining (device_of reader.old)) before (W.contents (device_of writer.old)) lines.old
        → OnErr result (IfSome input (λ bytes. BeginsAnswer bytes before (W.contents (device_of writer.new)))) }
    ensures bounded { IfOk result (λ is_end. (is_end ≡ false) → lines.new.index + lines.new.line.count ≤ lines.old.index + lines.old.line.count + 65536) }
    ensures reader_faults { (tally_of reader.new).faults ≡ reader_faults (fault_of result) (tally_of reader.old).faults }
    ensures writer_faults { (tally_of writer.new).faults ≡ writer_faults (fault_of result) (tally_of writer.old).faults }
    ensures flushed { OnOk result (StaysFlushed (tally_of writer.old) (tally_of writer.new)) }
    ensures out_of_turns { IfErr result (λ e. (e ≡ Fault.Turns) → turns.new ≡ 0) }
    ensures reads { (tally_of reader.new).calls ≡ count_after 1 (tally_of reader.old).calls }
    ensures turns { TakesTurns (tally_of writer.old) (tally_of writer.new) turns.old turns.new }
{
    let mut out = Vec::new(lines.alloc);
    match read_turn(reader, buf) {
        ReadTurn::Again => Ok(false),
        ReadTurn::Fault => Err(Fault::Input),
        ReadTurn::End => {
            let finished = lines.finish(&mut out);
            put(writer, &out, turns)?;
            finished?;
            Ok(true)
        }
        ReadTurn::Bytes(n) => {
            let fed = lines.feed(&mut out, &buf[..n]);
            put(writer, &out, turns)?;
            fed?;
            Ok(false)
        }
    }
}

/// Reads the input to its end, and answers its lines.
fn answer_lines<A: Allocator + Copy, R: Read, W: Write>(
    lines: &mut Reader<A>,
    reader: &mut CountRead<R>,
    writer: &mut CountWrite<W>,
    turns: &mut u64,
) -> Result<(), Fault>
    requires start { lines.old ≡ at_start }
    requires budget { turns.old < 2 ^ 32 }
    ensures covers { OnOk result (CoversLines (R.remaining (device_of reader.old))
        (W.contents (device_of writer.old)) (W.contents (device_of writer.new)) lines.new) }
    ensures part { OnErr result (IfSome (R.remaining (device_of reader.old)) (λ input.
        BeginsAnswer input (W.contents (device_of writer.old)) (W.contents (device_of writer.new)))) }
    ensures reader_faults { (tally_of reader.new).faults ≡ reader_faults (fault_of result) (tally_of reader.old).faults }
    ensures writer_faults { (tally_of writer.new).faults ≡ writer_faults (fault_of result) (tally_of writer.old).faults }
    ensures flushed { OnOk result (StaysFlushed (tally_of writer.old) (tally_of writer.new)) }
    ensures out_of_turns { IfErr result (λ e. (e ≡ Fault.Turns) → turns.new ≡ 0) }
    ensures turns { SpendsTurns (tally_of reader.old) (tally_of reader.new) (tally_of writer.old) (tally_of writer.new) turns.old turns.new }
{
    let mut buf = [0; PIECE];
    while *turns > 0 {
        *turns -= 1;
        if turn(lines, reader, writer, turns, &mut buf)? {
            return Ok(());
        }
    }
    Err(Fault::Turns)
}

/// Writes the run of the stream at a place, if it was named.
fn put_run<A: Allocator + Copy, W: Write>(
    alloc: A,
    streams: &mut Streams<A>,
    place: usize,
    writer: &mut CountWrite<W>,
    turns: &mut u64,
) -> Result<(), Fault>
    requires { place < 64 }
    ensures others { streams.new ≡ slice_set streams.old place None }
    ensures no_input { result ≢ Err Fault.Input }
    ensures faults { (tally_of writer.new).faults ≡ writer_faults (fault_of result) (tally_of writer.old).faults }
    ensures flushed { OnOk result (StaysFlushed (tally_of writer.old) (tally_of writer.new)) }
    ensures out_of_turns { IfErr result (λ e. (e ≡ Fault.Turns) → turns.new ≡ 0) }
    ensures turns { TakesTurns (tally_of writer.old) (tally_of writer.new) turns.old turns.new }
    ensures whole { OnOk result (Appends (W.contents (device_of writer.old)) (W.contents (device_of writer.new))
        (run_line (place + 1) (slice_index_or streams.old place None))) }
    ensures part { WritesPart (run_line (place + 1) (slice_index_or streams.old place None))
        (W.contents (device_of writer.old)) (W.contents (device_of writer.new)) }
{
    if let Some(bytes) = streams.take_run(place)? {
        let text = stream_line(alloc, place + 1, &bytes)?;
        put(writer, text.as_bytes(), turns)?;
    }
    Ok(())
}

/// Writes each named stream's run, in the order of the streams.
fn put_runs<A: Allocator + Copy, W: Write>(
    alloc: A,
    streams: Streams<A>,
    writer: &mut CountWrite<W>,
    turns: &mut u64,
) -> Result<(), Fault>
    ensures no_input { result ≢ Err Fault.Input }
    ensures faults { (tally_of writer.new).faults ≡ writer_faults (fault_of result) (tally_of writer.old).faults }
    ensures flushed { OnOk result (StaysFlushed (tally_of writer.old) (tally_of writer.new)) }
    ensures out_of_turns { IfErr result (λ e. (e ≡ Fault.Turns) → turns.new ≡ 0) }
    ensures turns { TakesTurns (tally_of writer.old) (tally_of writer.new) turns.old turns.new }
    ensures whole { OnOk result (Appends (W.contents (device_of writer.old)) (W.contents (device_of writer.new)) (runs_text streams)) }
    ensures part { WritesPart (runs_text streams) (W.contents (device_of writer.old)) (W.contents (device_of writer.new)) }
{
    let mut streams = streams;
    for place in 0..streams.count() {
        put_run(alloc, &mut streams, place, writer, turns)?;
    }
    Ok(())
}

/// Reads lines to the end of the input; each is a plain STREAM packet of a Prepare (RFC 0029) in hexadecimal. A line
/// that is refused changes nothing and is reported at once; an empty line is skipped. At the end it writes the longest
/// run of each stream that a StreamData frame of an accepted line named. Each call of a device takes one of `turns`,
/// which is below 2^32.
///
/// Fails with `Input` or `Output` exactly if the reader or the writer counted an error in this call, with `Turns` only
/// if no call is left, and with `NoMemory` if memory is refused. What was written by then is the beginning of the
/// answer.
pub fn answer_frames<A: Allocator + Copy, R: Read, W: Write>(
    alloc: A,
    reader: &mut CountRead<R>,
    writer: &mut CountWrite<W>,
    turns: &mut u64,
) -> Result<Lines, Fault>
    requires { turns.old < 2 ^ 32 }
    ensures answered { IfOk result (λ lines. IfSome (R.remaining (device_of reader.old)) (λ input.
        WritesAnswer input (has_refusal lines) (W.contents (device_of writer.old)) (W.contents (device_of writer.new)))) }
    ensures part { IfSome (R.remaining (device_of reader.old)) (λ input.
        BeginsAnswer input (W.contents (device_of writer.old)) (W.contents (device_of writer.new))) }
    ensures reader_faults { (tally_of reader.new).faults ≡ reader_faults (fault_of result) (tally_of reader.old).faults }
    ensures writer_faults { (tally_of writer.new).faults ≡ writer_faults (fault_of result) (tally_of writer.old).faults }
    ensures flushed { OnOk result (StaysFlushed (tally_of writer.old) (tally_of writer.new)) }
    ensures out_of_turns { IfErr result (λ e. (e ≡ Fault.Turns) → turns.new ≡ 0) }
    ensures turns { SpendsTurns (tally_of reader.old) (tally_of reader.new) (tally_of writer.old) (tally_of writer.new) turns.old turns.new }
{
    let mut lines = Reader::new(alloc)?;
    answer_lines(&mut lines, reader, writer, turns)?;
    let Reader {
        streams,
        refused,
        ..
    } = lines;
    put_runs(alloc, streams, writer, turns)?;
    if refused {
        return Ok(Lines::SomeRefused);
    }
    Ok(Lines::AllTaken)
}

/// Runs the command `frames` and returns its exit status: 0 if each line was accepted, and otherwise 1. A fault is
/// reported on `errors` by its number. It makes at most 2^31 - 1 calls of the reader and the writer, and reports fault
/// 93 if it used all of them.
pub fn run_frames<A: Allocator + Copy, R: Read, W: Write, E: Write>(
    alloc: A,
    reader: &mut CountRead<R>,
    writer: &mut CountWrite<W>,
    errors: &mut CountWrite<E>,
) -> u8
    ensures { RunsFrames (R.remaining (device_of reader.old)) (W.contents (device_of writer.old)) (W.contents (device_of writer.new))
        (HasEnded (tally_of reader.old) (tally_of reader.new) (tally_of writer.old) (tally_of writer.new))
        E.contents errors.old errors.new result }
{
    let mut turns = TURNS;
    match answer_frames(alloc, reader, writer, &mut turns) {
        Ok(Lines::AllTaken) => 0,
        Ok(Lines::SomeRefused) => 1,
        Err(fault) => tell_fault(errors, fault),
    }
}
