//! The command `frames` over devices that move few bytes a call, fail or interrupt: what it answers, how often it calls them,
//! and what it had flushed when a call failed.

use ilpstream_frames::{Fault, Lines, answer_frames, run_frames};
use st_devices::{CountRead, CountWrite};
use st_oer::utf8;
use std::alloc::{Allocator, Global};
use std::io;
use std::io::{ErrorKind, Read, Write};
use std::process::Abort;

/// A device that moves at most `piece` bytes a call. Its call number `fails_at` fails, counted from 1; a flush is a
/// call.
#[derive(Drop)]
pub(crate) struct Faulty<T> {
    inner: T,
    piece: usize,
    fails_at: u64,
    kind: ErrorKind,
    calls: u64,
}

impl<T> Faulty<T> {
    /// Where `fails_at` is 0 no call fails.
    pub(crate) fn new(inner: T, piece: usize, fails_at: u64, kind: ErrorKind) -> Self {
        Faulty {
            inner,
            piece,
            fails_at,
            kind,
            calls: 0,
        }
    }

    /// A device with no fault.
    pub(crate) fn sound(inner: T) -> Self {
        Faulty::new(inner, 4096, 0, ErrorKind::Other)
    }

    fn fails(&mut self) -> bool {
        self.calls = self.calls.saturating_add(1);
        self.calls == self.fails_at
    }
}

impl<T: Read> Read for Faulty<T> {
    fn read(&mut self, buf: &mut [u8]) -> io::Result<usize> {
        if self.fails() {
            return Err(io::Error::from(self.kind));
        }
        let room = buf.len().min(self.piece);
        self.inner.read(&mut buf[..room])
    }
}

impl<T: Write> Write for Faulty<T> {
    fn write(&mut self, buf: &[u8]) -> io::Result<usize> {
        if self.fails() {
            return Err(io::Error::from(self.kind));
        }
        let room = buf.len().min(self.piece);
        self.inner.write(&buf[..room])
    }

    fn flush(&mut self) -> io::Result<()> {
        if self.fails() {
            return Err(io::Error::from(self.kind));
        }
        self.inner.flush()
    }
}

/// A writer to memory, which keeps what was flushed apart from what was only written.
#[derive(Drop)]
pub(crate) struct Sink {
    flushed: Vec<u8>,
    waiting: Vec<u8>,
}

impl Sink {
    pub(crate) fn new(alloc: Global) -> Self {
        Sink {
            flushed: Vec::new(alloc),
            waiting: Vec::new(alloc),
        }
    }

    /// What was flushed.
    pub(crate) fn text(&self) -> &str {
        utf8(&self.flushed).unwrap_or("no text")
    }

    /// What was written since the last flush.
    fn unflushed(&self) -> &str {
        utf8(&self.waiting).unwrap_or("no text")
    }
}

impl Write for Sink {
    fn write(&mut self, buf: &[u8]) -> io::Result<usize> {
        self.waiting.extend_from_slice(buf)?;
        Ok(buf.len())
    }

    fn flush(&mut self) -> io::Result<()> {
        self.flushed.extend_from_slice(&self.waiting)?;
        self.waiting.clear();
        Ok(())
    }
}

/// What the program is run on: "cd" at 2 of stream 1, then "ab" at 0, twice.
pub(crate) const STORED: &str = "010c010101000101140701010102026364
010c010201000101140701010100026162
010c010201000101140701010100026162
";

/// What it prints of that.
pub(crate) const STORED_TEXT: &str = "stream 1 4 61626364\n";

/// The first two of those lines, "ho" of stream 3, and between them two lines that are refused. Their newlines are the
/// bytes 38 and 78, counted from 1, of 113.
const MIXED: &str = "010c010101000101140701010102026364
0g
010c010201000101140701010100026162
020c
010c01030100010114070103010002686f
";

const MIXED_TEXT: &str =
    "line 2 refused 95\nline 4 refused 20\nstream 1 4 61626364\nstream 3 2 686f\n";

/// The beginnings of `MIXED_TEXT` after one, two and three of its lines.
const ONE_LINE: &str = "line 2 refused 95\n";

const TWO_LINES: &str = "line 2 refused 95\nline 4 refused 20\n";

const THREE_LINES: &str = "line 2 refused 95\nline 4 refused 20\nstream 1 4 61626364\n";

/// What a run did: its status, what it wrote, the fault that it reported, and how often it called its reader and its
/// writer.
#[derive(Drop)]
pub(crate) struct Told {
    status: u8,
    written: Sink,
    errors: Sink,
    reads: u64,
    writes: u64,
}

impl Told {
    /// What it wrote and flushed.
    pub(crate) fn text(&self) -> &str {
        self.written.text()
    }

    /// The fault that it reported, and flushed.
    pub(crate) fn fault(&self) -> &str {
        self.errors.text()
    }

    /// Whether it wrote this and reported this fault, and ended with this status.
    pub(crate) fn is(&self, text: &str, fault: &str, status: u8) -> bool {
        self.text() == text && self.fault() == fault && self.status == status
    }
}

/// The command `frames` over these devices.
pub(crate) fn run_over<A: Allocator + Copy>(
    alloc: A,
    reader: Faulty<&[u8]>,
    writer: Faulty<Sink>,
    errors: Faulty<Sink>,
) -> Told {
    let mut reader = CountRead::new(reader);
    let mut writer = CountWrite::new(writer);
    let mut errors = CountWrite::new(errors);
    let status = run_frames(alloc, &mut reader, &mut writer, &mut errors);
    let reader = reader.into_inner();
    let writer = writer.into_inner();
    let errors = errors.into_inner();
    Told {
        status,
        reads: reader.calls,
        writes: writer.calls,
        written: writer.inner,
        errors: errors.inner,
    }
}

/// A writer with no fault.
fn sound_sink(alloc: Global) -> Faulty<Sink> {
    Faulty::sound(Sink::new(alloc))
}

/// The command over this input, with no fault of a device.
pub(crate) fn answer_to<A: Allocator + Copy>(memory: A, alloc: Global, input: &str) -> Told {
    answer_by(memory, alloc, input, 4096)
}

/// The same, with reads of at most `piece` bytes.
pub(crate) fn answer_by<A: Allocator + Copy>(
    memory: A,
    alloc: Global,
    input: &str,
    piece: usize,
) -> Told {
    let reader = Faulty::new(input.as_bytes(), piece, 0, ErrorKind::Other);
    run_over(memory, reader, sound_sink(alloc), sound_sink(alloc))
}

/// Ends the test if a fact does not hold of devices that accept `taken` and give `given` bytes a call, and fail at call
/// `n`.
fn sure_of(rt: &impl Abort, holds: bool, taken: usize, given: usize, n: u64) {
    assert!(rt; holds, "{taken} and {given} at {n}");
}

/// However few bytes a call moves, the answer is the same.
#[test]
fn few_bytes_a_call(rt: HostRuntime) {
    let alloc = rt.alloc();
    for (input, text, status) in [(STORED, STORED_TEXT, 0), (MIXED, MIXED_TEXT, 1)] {
        for (taken, given) in [(1, 4096), (4096, 1), (1, 1), (34, 5), (4096, 4096)] {
            let reader = Faulty::new(input.as_bytes(), taken, 0, ErrorKind::Other);
            let writer = Faulty::new(Sink::new(alloc), given, 0, ErrorKind::Other);
            let told = run_over(alloc, reader, writer, sound_sink(alloc));
            sure_of(&rt, told.is(text, "", status), taken, given, 0);
        }
    }
}

/// Each read fails in turn, of which there is one for each chunk and one more that meets the end. The fault is reported,
/// and each line that was read before is answered, and no more. Each row: the size of a chunk, the first and the last such
/// read, and what was flushed.
#[test]
fn reads_fail(rt: HostRuntime) {
    let rows: [(usize, u64, u64, &str); 8] = [
        (1, 1, 38, ""),
        (1, 39, 78, ONE_LINE),
        (1, 79, 114, TWO_LINES),
        (40, 1, 1, ""),
        (40, 2, 2, ONE_LINE),
        (40, 3, 4, TWO_LINES),
        (4096, 1, 1, ""),
        (4096, 2, 2, TWO_LINES),
    ];
    let alloc = rt.alloc();
    for (piece, first, last, text) in rows {
        for n in first..=last {
            let reader = Faulty::new(MIXED.as_bytes(), piece, n, ErrorKind::Other);
            let told = run_over(alloc, reader, sound_sink(alloc), sound_sink(alloc));
            sure_of(&rt, told.is(text, "fault 90\n", 1), piece, 4096, n);
            sure_of(&rt, told.reads == n, piece, 4096, n);
        }
    }
}

/// Each write and each flush fails in turn: there is a write for each chunk of a text, and a flush after each text. The
/// texts are the refusals that one read makes known, and each stream's line. Each row: the sizes of the chunks that are read
/// and written, the first and the last call that fails, and what was flushed before.
#[test]
fn writes_fail(rt: HostRuntime) {
    let rows: [(usize, usize, u64, u64, &str); 10] = [
        (1, 1, 1, 19, ""),
        (1, 1, 20, 38, ONE_LINE),
        (1, 1, 39, 59, TWO_LINES),
        (1, 1, 60, 76, THREE_LINES),
        (4096, 1, 1, 37, ""),
        (4096, 1, 38, 58, TWO_LINES),
        (4096, 1, 59, 75, THREE_LINES),
        (4096, 4096, 1, 2, ""),
        (4096, 4096, 3, 4, TWO_LINES),
        (4096, 4096, 5, 6, THREE_LINES),
    ];
    let alloc = rt.alloc();
    for (taken, given, first, last, text) in rows {
        for n in first..=last {
            let reader = Faulty::new(MIXED.as_bytes(), taken, 0, ErrorKind::Other);
            let writer = Faulty::new(Sink::new(alloc), given, n, ErrorKind::Other);
            let told = run_over(alloc, reader, writer, sound_sink(alloc));
            sure_of(&rt, told.is(text, "fault 91\n", 1), taken, given, n);
            sure_of(&rt, told.writes == n, taken, given, n);
        }
    }
}

/// An interrupted call is made again, whichever it is.
#[test]
fn calls_are_interrupted(rt: HostRuntime) {
    let alloc = rt.alloc();
    for n in 1..=120u64 {
        let reader = Faulty::new(MIXED.as_bytes(), 1, n, ErrorKind::Interrupted);
        let writer = Faulty::new(Sink::new(alloc), 1, n, ErrorKind::Interrupted);
        let told = run_over(alloc, reader, writer, sound_sink(alloc));
        sure!(&rt; told.is(MIXED_TEXT, "", 1), n);
    }
}

/// Each read, write and flush counts: two reads, and for each text a write and a flush.
#[test]
fn turns_are_used_up(rt: HostRuntime) {
    let alloc = rt.alloc();
    for (input, enough, lines) in [(STORED, 4, Lines::AllTaken), (MIXED, 8, Lines::SomeRefused)] {
        for given in 0..=enough {
            let mut turns = given;
            let mut reader = CountRead::new(Faulty::sound(input.as_bytes()));
            let mut writer = CountWrite::new(sound_sink(alloc));
            let answer = answer_frames(alloc, &mut reader, &mut writer, &mut turns);
            let want = if given < enough {
                Err(Fault::Turns)
            } else {
                Ok(lines)
            };
            sure!(&rt; answer == want, given);
            sure!(&rt; turns == 0, given);
        }
    }
    sure!(&rt; Fault::Turns.number() == 93);
}

/// Whether this is the text of 700 refused lines.
fn is_of_many(text: &str) -> bool {
    text.lines().count() == 700
        && text.starts_with("line 1 refused 95\nline 2 refused 95\n")
        && text.ends_with("line 699 refused 95\nline 700 refused 95\n")
}

/// A run of some thousand calls ends as a short one does: 700 refused lines, each of which takes two reads and, once its
/// newline is read, a write and a flush.
#[test]
fn a_run_makes_many_calls(rt: HostRuntime) {
    let alloc = rt.alloc();
    let input = "0\n".repeat(alloc, 700).expect(&rt, "memory");
    let reader = Faulty::new(input.as_bytes(), 1, 0, ErrorKind::Other);
    let told = run_over(alloc, reader, sound_sink(alloc), sound_sink(alloc));
    sure!(&rt; told.reads == 1401);
    sure!(&rt; told.writes == 1400);
    sure!(&rt; is_of_many(told.text()));
    sure!(&rt; told.fault() == "");
    sure!(&rt; told.status == 1);
}

/// A fault that cannot be reported is a fault, whichever call of the writer of errors fails.
#[test]
fn the_telling_fails(rt: HostRuntime) {
    let alloc = rt.alloc();
    for (n, waiting) in [(1, ""), (2, "fault"), (3, "fault 90\n")] {
        let reader = Faulty::new(STORED.as_bytes(), 1, 1, ErrorKind::Other);
        let errors = Faulty::new(Sink::new(alloc), 5, n, ErrorKind::Other);
        let told = run_over(alloc, reader, sound_sink(alloc), errors);
        sure!(&rt; told.is("", "", 1), n);
        sure!(&rt; told.errors.unflushed() == waiting, n);
    }
}
