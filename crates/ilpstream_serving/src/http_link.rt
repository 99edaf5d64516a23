//! A link to a neighbour by ILP over HTTP.

ghost use Rattle.std.specs.Prelude.{◌≡◌, true, IfErr, IfOk, IsErrOf, IsTrue, OnErr, OnOk, None, Some};
ghost use Rattle.st_links.specs.declared.link.LinkFault.TheVariants.{Device};
ghost use Rattle.std.specs.Duration.{as_nanos};
ghost use Rattle.st_http.specs.Texts as texts;
ghost use Rattle.ilpstream_serving.specs.Links.{IsTimeUntil, caused_fault, fault_of, share};
ghost use Rattle.ilpstream_serving.specs.declared.cause.LinkCause as causes;
ghost use Rattle.ilpstream_serving.specs.declared.cause.Unreached.TheVariants.{Other};
ghost use Rattle.st_devices.specs.Faults.{Rose};

use crate::buffered::Buffered;
use crate::cause::{LinkCause, Unreached, is_out_of_descriptors};
use crate::timed::{Timed, deadline_in, left_until};
use st_devices::{Counted, Counting};
use st_http::{HttpError, exchange};
use st_ilp::Moment;
use st_links::{Link, LinkFault};
use std::alloc::{AllocError, Allocator, Global};
use std::io;
use std::io::{Read, Write};
use std::marker::Model;
use std::net::{Net, OpenStream, SocketAddr, TcpStream, ToSocketAddrs};
use std::time::{Clock, Duration, Instant};

/// How many seconds an exchange or a served request may take as a whole: as long as a Prepare of an end may take.
pub const ANSWER_SECONDS: u64 = 30;

/// How many seconds an address of a host may take to accept a connection, if another address is left.
pub const ADDRESS_SECONDS: u64 = 3;

/// The host at which a neighbour is reached, and the token that it knows this side by.
#[derive(Drop)]
struct HostAndToken<A: Allocator + Copy> {
    host: String<A>,
    token: String<A>,
}

impl<A: Allocator + Copy> Model for HostAndToken<A> {
    ghost use Rattle.std.specs.Prelude.{IsTrue, string_bytes};
    ghost use Rattle.st_http.specs.Texts as texts;
    ghost use Rattle.ilpstream_serving.specs.Links as links;

    ghost Value = { links.HostAndToken };

    ghost view = { λ a. record { host = string_bytes a.host; token = string_bytes a.token } };

    ghost invariant = { λ a. IsTrue (texts.is_field_text (string_bytes a.host)) × IsTrue (texts.is_field_text (string_bytes a.token)) };
}

/// A link to one neighbour by ILP over HTTP (RFC 0035, the synchronous mode). Each exchange opens a TCP connection of
/// its own, sends one request and reads one response.
pub struct HttpLink<'n, N: Net + Clock, A: Allocator + Copy> {
    net: &'n N,
    neighbour: Option<HostAndToken<A>>,
    /// The address that answered the last exchange.
    address: Option<SocketAddr>,
    /// The number of calls of its stream that an exchange may make.
    turns: u64,
    faults: u64,
    /// Why the last exchange brought no answer.
    cause: Option<LinkCause>,
    alloc: A,
    global: Global,
}

// It is written out, so that a caller does not prove again how each part is dropped.
impl<'n, N: Net + Clock, A: Allocator + Copy> Drop for HttpLink<'n, N, A> {
    fn drop(self) {
        let HttpLink {
            net: _,
            neighbour: _,
            address: _,
            turns: _,
            faults: _,
            cause: _,
            alloc: _,
            global: _,
        } = self;
    }
}

/// Which fault of a link a refusal of HTTP is: the device's if a read or a write failed.
fn fault_of(error: HttpError) -> LinkFault
    ensures { result ≡ fault_of error }
{
    match error {
        HttpError::ReadFault | HttpError::WriteFault(_) => LinkFault::Device,
        HttpError::NoMemory => LinkFault::NoMemory,
        _ => LinkFault::Peer,
    }
}

/// Which fault of a link a cause is.
fn caused_fault(cause: LinkCause) -> LinkFault
    ensures { result ≡ caused_fault cause }
{
    match cause {
        LinkCause::Unreached(_) => LinkFault::Peer,
        LinkCause::NoMemory => LinkFault::NoMemory,
        LinkCause::Http(error) => fault_of(error),
    }
}

/// How long an exchange may take that begins this long after the start of 1970: until `by`, and 30 seconds at most. `None`
/// if `by` has passed.
fn time_until(now: Duration, by: Moment) -> Option<Duration>
    ensures { IsTimeUntil now by result }
{
    let end = Duration::from_millis(by.ms() as u64);
    let left = end.checked_sub(now)?;
    Some(left.min(Duration::from_secs(ANSWER_SECONDS)))
}

/// How long one address of a host may take to accept a connection, of the time that is left, if it is the first of `addresses`
/// that are not tried yet: the last all of that time, each other its share, and 3 seconds at most.
fn share_of(left: Duration, addresses: u32) -> Duration
    ensures { as_nanos result ≡ share (as_nanos left) addresses }
{
    if addresses <= 1 {
        return left;
    }
    match left.checked_div(addresses) {
        Some(share) => share.min(Duration::from_secs(ADDRESS_SECONDS)),
        None => left,
    }
}

impl<A: Allocator + Copy> HostAndToken<A> {
    /// One exchange on a stream to it.
    fn exchange<S: Read + Write + Drop>(
        &self,
        alloc: A,
        global: Global,
        stream: S,
        bytes: &[u8],
        turns: u64,
    ) -> Result<Vec<u8, A>, LinkCause> {
        let mut stream = Counting::new(stream);
        exchange(
            alloc,
            global,
            &mut stream,
            self.host.as_str(),
            self.token.as_str(),
            bytes,
            turns,
        )
        .map_err(LinkCause::Http)
    }
}

impl<'n, N: Net + Clock, A: Allocator + Copy> HttpLink<'n, N, A> {
    /// A link to `host`, as HOST:PORT, by this token. Each exchange makes at most `turns` calls of its stream. Fails only
    /// if memory is refused.
    pub fn new(
        alloc: A,
        global: Global,
        net: &'n N,
        host: &str,
        token: &str,
        turns: u64,
    ) -> Result<Self, AllocError>
        requires host { IsTrue (texts.is_field_text host.now) }
        requires token { IsTrue (texts.is_field_text token.now) }
        ensures neighbour { IfOk result (λ l. l.neighbour ≡ Some (record { host = host.now; token = token.now })) }
        ensures turns { IfOk result (λ l. l.turns ≡ turns) }
        ensures fresh { IfOk result (λ l. (l.address ≡ None) × (l.cause ≡ None)) }
    {
        let neighbour = HostAndToken {
            host: String::from_str(alloc, host)?,
            token: String::from_str(alloc, token)?,
        };
        Ok(HttpLink {
            net,
            neighbour: Some(neighbour),
            address: None,
            turns,
            faults: 0,
            cause: None,
            alloc,
            global,
        })
    }

    /// Makes a link that has no neighbour: each of its exchanges fails with `LinkFault::Peer`. Does not allocate.
    pub fn nowhere(alloc: A, global: Global, net: &'n N) -> Self
        ensures { (result.neighbour ≡ None) × (result.cause ≡ None) }
    {
        HttpLink {
            net,
            neighbour: None,
            address: None,
            turns: 0,
            faults: 0,
            cause: None,
            alloc,
            global,
        }
    }

    /// Why the last exchange brought no answer. `None` if it brought one, or there was none yet.
    pub fn cause(&self) -> Option<LinkCause>
        ensures { result ≡ self.now.cause }
    {
        self.cause
    }

    /// The address that the host's name was resolved to, if an exchange over it succeeded last.
    pub fn address(&self) -> Option<SocketAddr>
        ensures { result ≡ self.now.address }
    {
        self.address
    }

    /// Has the next exchange try this address first, before the host's name is resolved.
    pub fn set_address(&mut self, address: Option<SocketAddr>)
        ensures { self.new ≡ record self.old { address = address } }
    {
        self.address = address;
    }

    /// A connection to an address before the deadline, if it is the first of `addresses` that are not tried yet.
    fn connect_to(
        &self,
        address: SocketAddr,
        deadline: Option<Instant>,
        addresses: u32,
    ) -> Result<(N::Stream, SocketAddr), Unreached> {
        let Some(left) = left_until(self.net, deadline) else {
            return Err(Unreached::Timeout);
        };
        match TcpStream::connect_timeout(self.net, &address, share_of(left, addresses)) {
            Ok(stream) => Ok((stream, address)),
            Err(error) => Err(Unreached::by(&error)),
        }
    }

    /// Why a name did not resolve. The resolver needs a file descriptor, and does not always say that there was none.
    fn unresolved_by(&self, error: &io::Error) -> Unreached {
        let is_short = is_out_of_descriptors(error)
            || match self.net.unix_socket() {
                Ok(_) => false,
                Err(error) => is_out_of_descriptors(&error),
            };
        if is_short {
            Unreached::Descriptors
        } else {
            Unreached::Name
        }
    }

    /// A connection to the neighbour before the deadline, and its address: the one that was kept if it accepts a connection,
    /// or else the first that does, of those that the host's name is resolved to.
    fn connect(
        &self,
        host: &str,
        deadline: Option<Instant>,
    ) -> Result<(N::Stream, SocketAddr), Unreached> {
        if let Some(address) = self.address
            && let Ok(made) = self.connect_to(address, deadline, 2)
        {
            return Ok(made);
        }
        let found = match host.to_socket_addrs(self.net) {
            Ok(found) => found,
            Err(error) => return Err(self.unresolved_by(&error)),
        };
        let mut addresses = u32::try_from(found.len()).unwrap_or(u32::MAX);
        let mut why = Unreached::Name;
        for address in found {
            match self.connect_to(address, deadline, addresses) {
                Ok(made) => return Ok(made),
                Err(one) => why = one,
            }
            addresses = addresses.saturating_sub(1);
        }
        Err(why)
    }

    /// When an exchange has to be done: 30 seconds from now, or at `by` if that is sooner.
    fn deadline(&self, by: Moment) -> Option<Instant> {
        let now = self.net.since_1970().ok()?;
        deadline_in(self.net, time_until(now, by)?)
    }

    /// One exchange over a connection of its own, and the address that it was made to.
    fn exchange_once(&self, bytes: &[u8], by: Moment) -> Result<(Vec<u8, A>, SocketAddr), LinkCause>
        ensures nowhere { self.now.neighbour ≡ None → IsErrOf result (LinkCause.Unreached Other) }
    {
        let Some(neighbour) = &self.neighbour else {
            return Err(LinkCause::Unreached(Unreached::Other));
        };
        let deadline = self.deadline(by);
        let (stream, address) = match self.connect(neighbour.host.as_str(), deadline) {
            Ok(made) => made,
            Err(why) => return Err(LinkCause::Unreached(why)),
        };
        let _ = stream.set_nodelay(true);
        let timed = Timed::until(stream, self.net, deadline);
        let Ok(buffered) = Buffered::new(self.alloc, timed) else {
            return Err(LinkCause::NoMemory);
        };
        let answer = neighbour.exchange(self.alloc, self.global, buffered, bytes, self.turns)?;
        Ok((answer, address))
    }

    /// The same, and it keeps the address, or the cause.
    fn exchange_noting(&mut self, bytes: &[u8], by: Moment) -> Result<Vec<u8, A>, LinkFault>
        ensures answered { OnOk result (self.new.cause ≡ None) }
        ensures told { IfErr result (λ e. (cause : causes.LinkCause) × (self.new.cause ≡ Some cause) × (e ≡ caused_fault cause)) }
        ensures counted { IfErr result (λ e. e ≡ Device → Rose self.old.faults self.new.faults) }
        ensures nowhere { self.old.neighbour ≡ None → IsErrOf result LinkFault.Peer }
        ensures forgets { OnErr result (self.new.address ≡ None) }
        ensures same { (self.new.neighbour ≡ self.old.neighbour) × (self.new.turns ≡ self.old.turns) }
    {
        match self.exchange_once(bytes, by) {
            Ok((answer, address)) => {
                self.address = Some(address);
                self.cause = None;
                Ok(answer)
            }
            Err(cause) => {
                self.address = None;
                self.cause = Some(cause);
                let fault = caused_fault(cause);
                if matches!(fault, LinkFault::Device) {
                    self.faults = self.faults.saturating_add(1);
                }
                Err(fault)
            }
        }
    }
}

impl<N: Net + Clock, A: Allocator + Copy> Counted for HttpLink<'_, N, A> {
    ghost fault_count = { λ s. s.faults };

    fn faults(&self) -> u64 {
        self.faults
    }
}

impl<N: Net + Clock, A: Allocator + Copy> Link<A> for HttpLink<'_, N, A> {
    fn exchange(&mut self, bytes: &[u8], by: Moment) -> Result<Vec<u8, A>, LinkFault> {
        self.exchange_noting(bytes, by)
    }
}
