//! Lines of the log, with dates from Python's `datetime`, and journals over devices.

use crate::devices::Faulty;
use ilpstream_log::{Blocked, Brief, Cause, Event, Journal, Lost, Progress, line, shown};
use st_ilp::Moment;
use std::alloc::{AllocError, Global};
use std::io;
use std::io::{ErrorKind, Write};
use std::process::Abort;

/// The moment of 2026-01-02 03:04:05.006 UTC.
const MOMENT: i64 = 1_767_323_045_006;

/// A connection that was cut.
fn cut() -> Event<'static> {
    Event::Connection {
        lost: Lost::Cut,
        from: "192.0.2.1:5",
    }
}

/// A connection whose request was refused.
fn refused() -> Event<'static> {
    Event::Connection {
        lost: Lost::Status(401),
        from: "192.0.2.1:5",
    }
}

/// Whether the line of an event at a moment is this text.
fn is_line(alloc: Global, millis: i64, event: &Event<'_>, text: &str) -> bool {
    let Some(moment) = Moment::new(millis) else {
        return false;
    };
    match line(alloc, moment, 3, event) {
        Ok(line) => line.as_slice() == text.as_bytes(),
        Err(_) => false,
    }
}

/// Dates from outside: the first moment, a day that leap years have, and one of 2026.
#[test]
fn dates_are_those_of_the_calendar(rt: HostRuntime) {
    let alloc = rt.alloc();
    let done = Event::Done;
    sure!(&rt; is_line(alloc, 0, &done, "1970-01-01T00:00:00.000Z end ok\n"));
    sure!(&rt; is_line(alloc, 951_827_696_789, &done, "2000-02-29T12:34:56.789Z end ok\n"));
    sure!(&rt; is_line(alloc, MOMENT, &done, "2026-01-02T03:04:05.006Z end ok\n"));
}

/// A message of a peer that would forge a second line stays in its own.
#[test]
fn a_message_makes_no_second_line(rt: HostRuntime) {
    let event = Event::Exchange(Cause::Reject {
        code: *b"F02",
        by: "test.c",
        message: "no \"route\"\\\n2026-01-02T03:04:05.006Z end ok\u{e9}",
    });
    let text =
        "2026-01-02T03:04:05.006Z exchange neighbour=3 cause=reject code=F02 triggered_by=\"test.c\" message=\"no \\\"route\\\"\\\\\\x0a2026-01-02T03:04:05.006Z end ok\\xc3\\xa9\"\n";
    sure!(&rt; is_line(rt.alloc(), MOMENT, &event, text));
}

/// An end that waits at a receive max of 500 units, of which it paid 499.
#[test]
fn a_limit_has_its_stream(rt: HostRuntime) {
    let event = Event::Waits(Blocked::Money {
        stream: 1,
        receive_max: 500,
        total: 499,
    });
    let text =
        "2026-01-02T03:04:05.006Z waits at=stream-money stream=1 receive_max=500 total=499\n";
    sure!(&rt; is_line(rt.alloc(), MOMENT, &event, text));
}

/// A line of 1,500 bytes of 4,000, of which 300 arrived in the last 600 milliseconds, after a Reject whose code has an escape character.
#[test]
fn a_line_says_how_far_a_transfer_is(rt: HostRuntime) {
    let progress = Progress {
        bytes: 1_500,
        length: Some(4_000),
        gained: 300,
        millis: 600,
        units: 7,
        waits: None,
        last: Some(Brief::Reject(*b"T0\x1b")),
    };
    let text =
        "\r1500 bytes (37 %), 500 bytes/s, 7 units, 0:00:05 left (last failure: reject T0\\x1b)\x1b[K\r";
    let is_so = match shown(rt.alloc(), &progress) {
        Ok(line) => line.as_str() == text,
        Err(_) => false,
    };
    sure!(&rt; is_so);
}

/// A line of a sender that paid all 500 units that its peer accepts, and sends ten bytes a second of 37,260.
#[test]
fn a_line_has_the_limit_and_the_time_left(rt: HostRuntime) {
    let progress = Progress {
        bytes: 10,
        length: Some(37_260),
        gained: 10,
        millis: 1_000,
        units: 500,
        waits: Some(Blocked::Money {
            stream: 1,
            receive_max: 500,
            total: 500,
        }),
        last: None,
    };
    let text =
        "\r10 bytes (0 %), 10 bytes/s, 500 units, 1:02:05 left (waits at the limit of 500 units)\x1b[K\r";
    let is_so = match shown(rt.alloc(), &progress) {
        Ok(line) => line.as_str() == text,
        Err(_) => false,
    };
    sure!(&rt; is_so);
}

/// Thirteen events of one kind in a second have ten lines. The next second reports the three.
#[test]
fn what_is_left_out_is_told(rt: HostRuntime) {
    let alloc = rt.alloc();
    let mut text = Vec::new(alloc);
    let moment = Moment::new(MOMENT).unwrap();
    let later = Moment::new(MOMENT + 1_000).unwrap();
    if let Ok(journal) = Journal::new(alloc, Faulty::sound(&mut text), 3) {
        for _ in 0..13u32 {
            journal.note(&rt, moment, 3, &cut());
        }
        journal.note(&rt, moment, 2, &refused());
        journal.catch_up(&rt, later);
        sure!(&rt; !journal.has_failed());
    }
    let lines = text.iter().filter(|byte| **byte == b'\n').count();
    sure!(&rt; lines == 12);
    let last = b"2026-01-02T03:04:06.006Z more event=connection count=3\n";
    sure!(&rt; text.ends_with(last.as_slice()));
}

/// A write that fails in the second line, of which it wrote 40 bytes, is made again with the third: each line is whole.
#[test]
fn a_failed_write_is_made_again(rt: HostRuntime) {
    let alloc = rt.alloc();
    let mut text = Vec::new(alloc);
    let moment = Moment::new(MOMENT).unwrap();
    if let Ok(journal) = Journal::new(alloc, Faulty::new(&mut text, 40, 3, ErrorKind::Other), 0) {
        journal.note(&rt, moment, 0, &Event::Done);
        sure!(&rt; !journal.has_failed());
        journal.note(
            &rt,
            moment,
            0,
            &Event::Waits(Blocked::Connection { max_offset: 7 }),
        );
        sure!(&rt; journal.has_failed());
        journal.note(&rt, moment, 0, &cut());
        sure!(&rt; !journal.has_failed());
    }
    let lines = b"2026-01-02T03:04:05.006Z end ok
2026-01-02T03:04:05.006Z waits at=connection-data limit=7
2026-01-02T03:04:05.006Z connection cut from=\"192.0.2.1:5\"
";
    sure!(&rt; text.as_slice() == lines.as_slice());
}

/// Accepts no bytes for a given number of calls, as a pipe whose reader is slow.
#[derive(Drop)]
struct Full<T> {
    inner: T,
    left: u32,
}

impl<T: Write> Write for Full<T> {
    fn write(&mut self, buf: &[u8]) -> io::Result<usize> {
        if self.left > 0 {
            self.left -= 1;
            return Err(io::Error::from(ErrorKind::WouldBlock));
        }
        self.inner.write(buf)
    }

    fn flush(&mut self) -> io::Result<()> {
        self.inner.flush()
    }
}

/// Lines for which the writer would wait are written before the first one for which it would not.
#[test]
fn a_line_that_would_wait_is_written_later(rt: HostRuntime) {
    let alloc = rt.alloc();
    let mut text = Vec::new(alloc);
    let moment = Moment::new(MOMENT).unwrap();
    let writer = Full {
        inner: &mut text,
        left: 3,
    };
    if let Ok(journal) = Journal::new(alloc, writer, 0) {
        journal.note(&rt, moment, 0, &refused());
        journal.note(&rt, moment, 0, &cut());
        sure!(&rt; !journal.has_failed());
        journal.note(&rt, moment, 0, &Event::Limit { most: 5 });
    }
    let lines = b"2026-01-02T03:04:05.006Z connection status=401 from=\"192.0.2.1:5\"
2026-01-02T03:04:05.006Z connection cut from=\"192.0.2.1:5\"
2026-01-02T03:04:05.006Z limit neighbour=0 most=5
";
    sure!(&rt; text.as_slice() == lines.as_slice());
}

/// The line of the end waits for a writer that accepts nothing at first.
#[test]
fn the_end_waits_for_its_writer(rt: HostRuntime) {
    let alloc = rt.alloc();
    let mut text = Vec::new(alloc);
    let moment = Moment::new(MOMENT).unwrap();
    let writer = Full {
        inner: &mut text,
        left: 9,
    };
    if let Ok(journal) = Journal::new(alloc, writer, 0) {
        journal.finish(&rt, moment, &Event::Done);
    }
    sure!(&rt; text.as_slice() == b"2026-01-02T03:04:05.006Z end ok\n".as_slice());
}

/// Of 1,030 lines for a writer that accepts nothing, 1,024 wait. The next one reports the other six.
#[test]
fn what_finds_no_room_is_told(rt: HostRuntime) {
    let alloc = rt.alloc();
    let mut text = Vec::new(alloc);
    let moment = Moment::new(MOMENT).unwrap();
    let writer = Full {
        inner: &mut text,
        left: 2_059,
    };
    if let Ok(journal) = Journal::new(alloc, writer, 1_100) {
        for neighbour in 0..1_030usize {
            journal.note(&rt, moment, neighbour, &Event::Limit { most: 5 });
        }
        journal.note(&rt, moment, 0, &cut());
    }
    let lines = text.iter().filter(|byte| **byte == b'\n').count();
    sure!(&rt; lines == 1_026);
    let last = b"limit neighbour=1023 most=5
2026-01-02T03:04:05.006Z more lost=6
2026-01-02T03:04:05.006Z connection cut from=\"192.0.2.1:5\"
";
    sure!(&rt; text.ends_with(last.as_slice()));
}

/// A text of a peer is cut at 256 characters of the line, and no character of it is cut in two: 127 newlines would take 508.
#[test]
fn a_text_of_a_peer_is_cut(rt: HostRuntime) {
    sure!(&rt; is_cut(rt.alloc(), "a", "a", 256));
    sure!(&rt; is_cut(rt.alloc(), "\"", "\\\"", 128));
    sure!(&rt; is_cut(rt.alloc(), "\n", "\\x0a", 64));
    sure!(&rt; is_cut(rt.alloc(), "\u{e9}", "\\xc3\\xa9", 32));
    sure!(&rt; is_cut(rt.alloc(), "\u{20ac}", "\\xe2\\x82\\xac", 21));
    sure!(&rt; is_cut(rt.alloc(), "\u{1f600}", "\\xf0\\x9f\\x98\\x80", 16));
}

/// Whether `most` characters of a message are in the line, if the message has one character as often as fits, and once
/// more.
fn is_cut(alloc: Global, character: &str, written: &str, most: usize) -> bool {
    let (Ok(whole), Ok(more), Ok(kept)) = (
        repeated(alloc, character, most),
        repeated(alloc, character, most.saturating_add(1)),
        repeated(alloc, written, most),
    ) else {
        return false;
    };
    has_message(alloc, &whole, &kept, "") && has_message(alloc, &more, &kept, "..")
}

/// A text, repeated `count` times.
fn repeated(alloc: Global, text: &str, count: usize) -> Result<String, AllocError> {
    let mut all = String::new(alloc);
    for _ in 0..count {
        all.push_str(text)?;
    }
    Ok(all)
}

/// Whether the line of a Reject with this message ends so.
fn has_message(alloc: Global, message: &str, kept: &str, dots: &str) -> bool {
    let event = Event::Exchange(Cause::Reject {
        code: *b"F00",
        by: "test.c",
        message,
    });
    match format!(in alloc;
        "2026-01-02T03:04:05.006Z exchange neighbour=3 cause=reject code=F00 triggered_by=\"test.c\" message=\"{kept}{dots}\"\n"
    ) {
        Ok(text) => is_line(alloc, MOMENT, &event, text.as_str()),
        Err(_) => false,
    }
}
