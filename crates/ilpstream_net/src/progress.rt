//! The reports of `send` and `receive` while they run: a line on a terminal, and totals in the log.

ghost use Rattle.std.specs.Prelude.{◌≡◌};
ghost use Rattle.std.specs.Duration.{as_nanos};
ghost use Rattle.std.specs.Time.{instant_nanos};
ghost use Rattle.ilpstream_net.specs.Progress as spec;

use crate::end_totals::put_totals_now;
use crate::log::{Log, tell_minute};
use crate::terminal::{has_terminal, put_terminal};
use ilpstream_log::{Blocked, Brief, Progress, shown};
use ilpstream_serving::Watch;
use st_streams::EndTotals;
use std::alloc::Global;
use std::fs;
use std::fs::{File, Files};
use std::time::{Clock, Duration, Instant};

/// How many milliseconds pass at least between two times that the line is written.
const LINE_MILLIS: u64 = 250;

/// How many milliseconds pass between two checks of a transfer that has a log and no terminal.
const LOOK_MILLIS: u64 = 1_000;

/// How many seconds pass at least between two times that the totals are logged.
const LOG_SECONDS: u64 = 60;

/// How many milliseconds are between two marks at least, from which the last seconds of a transfer are counted.
const MARK_MILLIS: u64 = 5_000;

/// What clears the line.
const CLEARED: [u8; 4] = *b"\r\x1b[K";

/// Which end of a connection a command runs.
#[derive(Clone, Copy)]
pub enum Side {
    /// It sends an input of this length, if that is known.
    Sends(Option<u64>),
    /// It receives.
    Receives,
}

/// How many bytes a transfer had `millis` milliseconds after its start.
#[derive(Clone, Copy)]
pub(crate) struct Mark {
    bytes: u64,
    millis: u64,
}

/// The beginning of a transfer.
const START: Mark = Mark {
    bytes: 0,
    millis: 0,
};

/// The last two marks of a transfer.
#[derive(Clone, Copy)]
pub(crate) struct Span {
    /// The mark at which the last seconds begin.
    from: Mark,
    /// The mark at which they begin next, once there is a further one.
    next: Mark,
}

/// The start of a transfer, when its line was last written and its totals were last logged, and its marks.
#[derive(Clone, Copy)]
struct Times {
    begun: Instant,
    shown: Instant,
    logged: Instant,
    span: Span,
}

/// Reports the progress of `send` or `receive`.
#[derive(Drop)]
pub struct Teller<'a, N> {
    rt: &'a N,
    alloc: Global,
    log: Log<'a>,
    side: Side,
    on_terminal: bool,
    /// `None` if the clock cannot be read: nothing is reported then.
    times: Option<Times>,
}

/// The bytes of an end with these totals.
fn bytes_of(side: Side, totals: &EndTotals) -> u64
    ensures { result ≡ spec.bytes_of side totals.now }
{
    match side {
        Side::Sends(_) => totals.accepted,
        Side::Receives => totals.delivered,
    }
}

/// The marks of a transfer whose present state is `here`.
fn moved(span: Span, here: Mark) -> Span
    ensures { result ≡ spec.moved span here }
{
    if here.millis.saturating_sub(span.next.millis) < MARK_MILLIS {
        return span;
    }
    Span {
        from: span.next,
        next: here,
    }
}

/// The progress of an end with these totals, `millis` milliseconds after its start, and how much of it was made since a
/// mark.
fn progress_of(
    side: Side,
    totals: &EndTotals,
    from: Mark,
    millis: u64,
    waits: Option<Blocked>,
    last: Option<Brief>,
) -> Progress
    ensures { result ≡ spec.progress_of side totals.now from millis waits last }
{
    let millis = millis.saturating_sub(from.millis);
    match side {
        Side::Sends(length) => Progress {
            bytes: totals.accepted,
            length,
            gained: totals.accepted.saturating_sub(from.bytes),
            millis,
            units: totals.paid,
            waits,
            last,
        },
        Side::Receives => Progress {
            bytes: totals.delivered,
            length: None,
            gained: totals.delivered.saturating_sub(from.bytes),
            millis,
            units: totals.credited,
            waits,
            last,
        },
    }
}

/// Whether this period has passed since an earlier time.
fn is_due(now: Instant, before: Instant, period: Duration) -> bool
    ensures { result ≡ spec.is_due (instant_nanos now) (instant_nanos before) (as_nanos period) }
{
    now.duration_since(before).as_nanos() >= period.as_nanos()
}

/// How many bytes standard input has, if it is a regular file.
pub fn input_length<N: Files<File = File>>(rt: &N) -> Option<u64> {
    match fs::metadata(rt, "/dev/stdin") {
        Ok(found) if found.is_file() => Some(found.len()),
        _ => None,
    }
}

impl<'a, N: Clock> Teller<'a, N> {
    /// The reports of a transfer that begins now: on the terminal, if standard error is one, and in the log, if there is
    /// one.
    pub fn new(rt: &'a N, alloc: Global, log: Log<'a>, side: Side) -> Teller<'a, N> {
        let times = match Instant::now(rt) {
            Ok(begun) => Some(Times {
                begun,
                shown: begun,
                logged: begun,
                span: Span {
                    from: START,
                    next: START,
                },
            }),
            Err(_) => None,
        };
        Teller {
            rt,
            alloc,
            log,
            side,
            on_terminal: has_terminal(),
            times,
        }
    }

    /// Writes the line, this long after the start. Returns the marks then.
    fn show(
        &self,
        totals: &EndTotals,
        span: Span,
        since: Duration,
        waits: Option<Blocked>,
        last: Option<Brief>,
    ) -> Span {
        let millis = u64::try_from(since.as_millis()).unwrap_or(u64::MAX);
        let bytes = bytes_of(self.side, totals);
        let span = moved(span, Mark { bytes, millis });
        let progress = progress_of(self.side, totals, span.from, millis, waits, last);
        if let Ok(line) = shown(self.alloc, &progress) {
            put_terminal(line.as_bytes());
        }
        span
    }
}

impl<N: Files<File = File> + Clock> Teller<'_, N> {
    /// Writes the totals now: to the file of this name, if one was asked for, and to the log, if there is one.
    pub(crate) fn put_now(&self, name: Option<&str>, totals: &EndTotals) {
        put_totals_now(self.rt, self.alloc, name, totals);
        tell_minute(self.rt, self.log, totals);
    }
}

impl<N: Clock> Watch for Teller<'_, N> {
    fn period(&self) -> Option<Duration> {
        if self.times.is_none() {
            return None;
        }
        if self.on_terminal {
            return Some(Duration::from_millis(LINE_MILLIS));
        }
        if self.log.is_some() {
            return Some(Duration::from_millis(LOOK_MILLIS));
        }
        None
    }

    fn look(&mut self, totals: &EndTotals, waits: Option<Blocked>, last: Option<Brief>) {
        if self.period().is_none() {
            return;
        }
        let Some(times) = self.times else {
            return;
        };
        let Ok(now) = Instant::now(self.rt) else {
            return;
        };
        let mut told = times;
        if self.on_terminal && is_due(now, times.shown, Duration::from_millis(LINE_MILLIS)) {
            told.shown = now;
            let since = now.duration_since(times.begun);
            told.span = self.show(totals, times.span, since, waits, last);
        }
        if is_due(now, times.logged, Duration::from_secs(LOG_SECONDS)) {
            told.logged = now;
            tell_minute(self.rt, self.log, totals);
        }
        self.times = Some(told);
    }

    fn end(&mut self) {
        if self.on_terminal {
            put_terminal(&CLEARED);
        }
    }
}
