//! The connections of a receiver on which a request is on its way.

ghost use Rattle.std.specs.Prelude.{◌≡◌, ℕ, ◌+◌, ◌<◌, ◌≤◌, IsTrue, IfOk, IfSome, IsOkUnless, MatchOption, OnErr, vec_len};
ghost use Rattle.st_http.specs.Message.{refused};
ghost use Rattle.st_http.specs.declared.error.HttpError.TheVariants.{Status};
ghost use Rattle.ilpstream_serving.specs.Answering.{IsWholeAt};
ghost use Rattle.ilpstream_serving.specs.declared.error.TransferError.TheVariants.{Accept};

use ilpstream_serving::{
    ANSWER_SECONDS, AwaitListener, Log, PAUSE, TRIES, Timed, TransferError, WRITE_SECONDS,
    deadline_in, left_until, millis_of, tell_connection,
};
use libc::net::{POLLIN, poll};
use libc::types::pollfd;
use st_devices::{Counting, ReadTurn, read_turn};
use st_http::{HttpError, Reading, refuse};
use std::alloc::Global;
use std::io::{ErrorKind, Read, Write};
use std::net::{OpenStream, SocketAddr};
use std::thread;
use std::time::{Clock, Duration, Instant};

/// The most connections of all threads together on which a request is on its way.
pub(crate) const MOST_GUESTS: usize = 256;

/// The most bytes of one read.
const PIECE: usize = 16_384;

/// How many milliseconds a thread waits at most before it asks again whether it is to continue.
const LOOK_MILLIS: u64 = 200;

/// How far a request has been read.
#[derive(Clone, Copy)]
enum Step {
    /// It is not whole yet.
    More,
    Whole,
    /// It is refused by this status.
    Refused(u16),
    /// It will not arrive: the connection ended, failed, or its time or its I/O calls are used up, or memory is refused.
    Gone,
}

/// A connection, and what has arrived of its request.
#[derive(Drop)]
pub(crate) struct Guest<'a, S, R: Clock> {
    /// The descriptor by which `poll` waits for it, if it has one.
    descriptor: Option<i32>,
    /// The address of its other side.
    from: SocketAddr,
    pub(crate) stream: Counting<Timed<'a, S, R>>,
    pub(crate) reading: Reading<'a, Global>,
    deadline: Option<Instant>,
    /// The I/O calls that are left to it.
    pub(crate) turns: u64,
}

impl<S: Read + Write + OpenStream + Drop, R: Clock> Guest<'_, S, R> {
    /// Reads these bytes of the request.
    fn feed(&mut self, bytes: &[u8]) -> Step
        ensures whole { result ≡ Step.Whole → IsWholeAt self.new.reading.standing }
        ensures refused { (status : ℕ) → result ≡ Step.Refused status → self.new.reading.standing ≡ refused (Status status) }
    {
        match self.reading.feed(bytes) {
            Ok(_) if self.reading.body().is_some() && self.reading.account().is_some() => {
                Step::Whole
            }
            Ok(_) => Step::More,
            Err(HttpError::Status(status)) => Step::Refused(status),
            Err(_) => Step::Gone,
        }
    }

    /// Reads what has arrived, with one call of the stream.
    fn read(&mut self) -> Step
        ensures whole { result ≡ Step.Whole → IsWholeAt self.new.reading.standing }
        ensures refused { (status : ℕ) → result ≡ Step.Refused status → self.new.reading.standing ≡ refused (Status status) }
    {
        if self.turns == 0 {
            return Step::Gone;
        }
        self.turns -= 1;
        let mut piece = [0; PIECE];
        match read_turn(&mut self.stream, &mut piece) {
            ReadTurn::Bytes(n) => self.feed(&piece[..n]),
            ReadTurn::Again => Step::More,
            ReadTurn::End | ReadTurn::Fault => Step::Gone,
        }
    }

    /// Refuses the request by this status, which is its own, and ends the connection.
    fn refuse(self, alloc: Global, status: u16)
        requires { self.reading.standing ≡ refused (Status status) }
    {
        let Guest {
            mut stream,
            mut turns,
            ..
        } = self;
        let _ = refuse(alloc, &mut stream, status, &mut turns);
    }
}

/// What can be done without waiting.
#[derive(Clone, Copy)]
struct Ready {
    /// A connection can be accepted.
    accept: bool,
    /// The place of a connection that can be read, or whose time is over.
    guest: Option<usize>,
}

/// A listener, and the connections of one thread on which a request is on its way. None of them delays another: one is
/// read if something has arrived on it, or its time is over.
#[derive(Drop)]
pub(crate) struct Lobby<'a, L: AwaitListener, R: Clock> {
    rt: &'a R,
    alloc: Global,
    listener: &'a L,
    /// The bearer token of each account.
    tokens: &'a [&'a str],
    /// The most I/O calls of each connection.
    turns: u64,
    /// The number of connections that may still be accepted.
    left: u64,
    /// The most connections on which a request is on its way: one more, and the oldest is closed.
    most: usize,
    /// The oldest first.
    guests: Vec<Guest<'a, L::Stream, R>>,
    /// The place at which the search for a readable connection begins, so that each is served in turn.
    from: usize,
    /// How often in a row the listener failed while there was no connection.
    failures: u32,
    /// The log to which connections without a request are reported.
    log: Log<'a>,
}

impl<'a, L: AwaitListener, R: Clock> Lobby<'a, L, R>
where
    L::Stream: Read + Write + OpenStream,
{
    /// No connection yet. At most `left` are accepted, of which each may use `turns` I/O calls, and `most` are read at once.
    pub(crate) fn new(
        rt: &'a R,
        alloc: Global,
        listener: &'a L,
        tokens: &'a [&'a str],
        turns: u64,
        left: u64,
        most: usize,
        log: Log<'a>,
    ) -> Lobby<'a, L, R>
        ensures { result.left ≡ left }
    {
        Lobby {
            rt,
            alloc,
            listener,
            tokens,
            turns,
            left,
            most,
            guests: Vec::new(alloc),
            from: 0,
            failures: 0,
            log,
        }
    }

    /// How long to wait at most: until the time of the first connection is over, and no longer than 200 milliseconds.
    fn longest_wait(&self) -> Duration {
        let mut longest = Duration::from_millis(LOOK_MILLIS);
        for guest in &self.guests {
            let left = left_until(self.rt, guest.deadline).unwrap_or(Duration::ZERO);
            longest = longest.min(left);
        }
        longest
    }

    /// Whether a connection can be read, by what `poll` reported of it, or its time is over.
    fn is_due(&self, place: usize, fds: &[pollfd]) -> bool {
        match (self.guests.get(place), fds.get(place)) {
            (Some(guest), Some(fd)) => {
                fd.revents != 0 || left_until(self.rt, guest.deadline).is_none()
            }
            _ => false,
        }
    }

    /// The place of the next connection that can be read.
    fn due(&self, fds: &[pollfd]) -> Option<usize>
        ensures { IfSome result (λ i. i < vec_len self.now.guests) }
    {
        let all = self.guests.len();
        for place in self.from.min(all)..all {
            if self.is_due(place, fds) {
                return Some(place);
            }
        }
        for place in 0..self.from.min(all) {
            if self.is_due(place, fds) {
                return Some(place);
            }
        }
        None
    }

    /// What can be done at a listener that `poll` knows nothing of: its one connection is read until its request has arrived.
    fn unpolled(&self, accepts: bool) -> Ready
        ensures guest { IfSome result.guest (λ i. i < vec_len self.now.guests) }
        ensures accept { IsTrue result.accept → 0 < self.now.left }
    {
        let is_empty = self.guests.is_empty();
        Ready {
            accept: accepts && is_empty && self.left > 0,
            guest: if is_empty { None } else { Some(0) },
        }
    }

    /// Waits until a connection can be accepted, if it `accepts` any, or read, or its time is over, and for 200 milliseconds at
    /// most.
    fn wait(&self, accepts: bool) -> Ready
        ensures guest { IfSome result.guest (λ i. i < vec_len self.now.guests) }
        ensures accept { IsTrue result.accept → 0 < self.now.left }
    {
        let Some(listener) = self.listener.descriptor() else {
            return self.unpolled(accepts);
        };
        let mut fds = [pollfd {
            fd: -1,
            events: POLLIN,
            revents: 0,
        }; MOST_GUESTS + 1];
        if accepts && self.left > 0 {
            fds[0].fd = listener;
        }
        let (_, behind) = fds.split_at_mut(1);
        for (fd, guest) in behind.iter_mut().zip(&self.guests) {
            fd.fd = guest.descriptor.unwrap_or(-1);
        }
        let last = self.guests.len().min(MOST_GUESTS);
        if poll(&mut fds[..=last], millis_of(self.longest_wait())) < 0 {
            thread::sleep(self.rt, Duration::from_millis(PAUSE));
        }
        Ready {
            accept: accepts && self.left > 0 && fds[0].revents != 0,
            guest: self.due(&fds[1..]),
        }
    }

    /// The listener gave no connection. If it failed, and other connections use file descriptors and memory, the oldest of
    /// them is closed. Fails with `Accept`, if there is no other, after 100 failures in a row, or if the listener is shut.
    fn miss(&mut self, kind: ErrorKind) -> Result<(), TransferError>
        ensures refused { IsOkUnless result Accept }
        ensures left { self.new.left ≡ self.old.left }
        ensures fewer { vec_len self.new.guests ≤ vec_len self.old.guests }
    {
        let is_shut = match kind {
            ErrorKind::WouldBlock | ErrorKind::Interrupted => {
                self.failures = 0;
                return Ok(());
            }
            ErrorKind::InvalidInput => true,
            _ => false,
        };
        if !is_shut && !self.guests.is_empty() {
            drop(self.guests.remove(0));
            return Ok(());
        }
        if is_shut && self.guests.is_empty() {
            return Err(TransferError::Accept);
        }
        thread::sleep(self.rt, Duration::from_millis(PAUSE));
        self.failures = self.failures.saturating_add(1);
        if self.failures >= TRIES && self.guests.is_empty() {
            return Err(TransferError::Accept);
        }
        Ok(())
    }

    /// Tries to accept a connection. Its request may take no longer than `time` to arrive.
    fn accept(&mut self, time: Option<Duration>) -> Result<(), TransferError>
        requires { 0 < self.old.left }
        ensures refused { IsOkUnless result Accept }
        ensures kept { OnErr result (self.new.left ≡ self.old.left) }
        ensures fewer { self.new.left + vec_len self.new.guests ≤ self.old.left + vec_len self.old.guests }
    {
        match self.listener.accept() {
            Ok((stream, from)) => {
                self.take_in(stream, from, time);
                Ok(())
            }
            Err(error) => self.miss(error.kind()),
        }
    }

    /// Closes the oldest connection, if no further one may be read at the same time.
    fn make_room(&mut self)
        ensures left { self.new.left ≡ self.old.left }
        ensures fewer { vec_len self.new.guests ≤ vec_len self.old.guests }
    {
        if self.guests.len() >= self.most && !self.guests.is_empty() {
            drop(self.guests.remove(0));
        }
    }

    /// Takes an accepted connection in. Its request may take no longer than `time` to arrive.
    fn take_in(&mut self, stream: L::Stream, from: SocketAddr, time: Option<Duration>)
        requires { 0 < self.old.left }
        ensures { self.new.left + vec_len self.new.guests ≤ self.old.left + vec_len self.old.guests }
    {
        self.failures = 0;
        self.left -= 1;
        self.make_room();
        let guest = self.guest_of(stream, from, time);
        let _ = self.guests.push(guest);
    }

    /// A connection of which nothing was read. Its request may take 30 seconds to arrive, and no longer than `time`.
    fn guest_of(
        &self,
        stream: L::Stream,
        from: SocketAddr,
        time: Option<Duration>,
    ) -> Guest<'a, L::Stream, R> {
        let most = Duration::from_secs(ANSWER_SECONDS);
        let time = time.map_or(most, |left| left.min(most));
        let answer = Duration::from_secs(WRITE_SECONDS);
        Guest {
            descriptor: L::descriptor_of(&stream),
            from,
            stream: Counting::new(Timed::answering(stream, self.rt, time, answer)),
            reading: Reading::request(self.alloc, self.alloc, self.tokens),
            deadline: deadline_in(self.rt, time),
            turns: self.turns,
        }
    }

    /// Accepts no further connection. Those on which a request is on its way stay.
    pub(crate) fn stop(&mut self)
        ensures left { self.new.left ≡ 0 }
        ensures kept { vec_len self.new.guests ≡ vec_len self.old.guests }
    {
        self.left = 0;
    }

    /// Whether no request is on its way.
    pub(crate) fn is_empty(&self) -> bool {
        self.guests.is_empty()
    }

    /// Whether no further request can arrive.
    pub(crate) fn is_done(&self) -> bool
        ensures done { IsTrue result → (self.now.left ≡ 0) × (vec_len self.now.guests ≡ 0) }
    {
        self.left == 0 && self.guests.is_empty()
    }

    /// Refuses the request of a connection by this status, which is its own, and ends the connection.
    fn dismiss(&self, guest: Guest<'a, L::Stream, R>, status: u16)
        requires { guest.reading.standing ≡ refused (Status status) }
    {
        let from = guest.from;
        guest.refuse(self.alloc, status);
        tell_connection(self.rt, self.alloc, self.log, from, Some(status));
    }

    /// Ends a connection on which no request arrived.
    fn let_go(&self, guest: Guest<'a, L::Stream, R>) {
        let from = guest.from;
        drop(guest);
        tell_connection(self.rt, self.alloc, self.log, from, None);
    }

    /// Reads what has arrived on a connection, and gives it once its request has arrived intact.
    fn read(&mut self, place: usize) -> Option<Guest<'a, L::Stream, R>>
        requires { place < vec_len self.old.guests }
        ensures left { self.new.left ≡ self.old.left }
        ensures whole { IfSome result (λ g. IsWholeAt g.reading.standing) }
        ensures fewer { MatchOption result (vec_len self.new.guests ≤ vec_len self.old.guests) (λ _. vec_len self.new.guests + 1 ≡ vec_len self.old.guests) }
    {
        self.from = place + 1;
        match self.guests[place].read() {
            Step::More => None,
            Step::Whole => Some(self.guests.remove(place)),
            Step::Refused(status) => {
                let guest = self.guests.remove(place);
                self.dismiss(guest, status);
                None
            }
            Step::Gone => {
                let guest = self.guests.remove(place);
                self.let_go(guest);
                None
            }
        }
    }

    /// Waits until something can be done, for 200 milliseconds at most, and does it: reads what has arrived on a connection,
    /// or accepts one, if it `accepts` any. Gives a connection once its request has arrived intact. One whose request is
    /// refused is answered by its status. The request of a new connection may take no longer than `time` to arrive.
    ///
    /// Fails with `Accept` if the listener gave no connection 100 times in a row while none was open.
    pub(crate) fn turn(
        &mut self,
        time: Option<Duration>,
        accepts: bool,
    ) -> Result<Option<Guest<'a, L::Stream, R>>, TransferError>
        ensures refused { IsOkUnless result Accept }
        ensures unaccepted { OnErr result (0 < self.new.left) }
        ensures whole { IfOk result (λ came. IfSome came (λ g. IsWholeAt g.reading.standing)) }
        ensures fewer { IfOk result (λ came. MatchOption came (self.new.left + vec_len self.new.guests ≤ self.old.left + vec_len self.old.guests) (λ _. self.new.left + vec_len self.new.guests < self.old.left + vec_len self.old.guests)) }
    {
        let ready = self.wait(accepts);
        if let Some(place) = ready.guest
            && let Some(guest) = self.read(place)
        {
            return Ok(Some(guest));
        }
        if ready.accept && self.left > 0 {
            self.accept(time)?;
        }
        Ok(None)
    }
}
