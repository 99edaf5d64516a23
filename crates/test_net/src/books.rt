//! A connector that stores what it books at a till.

ghost use Rattle.std.specs.Prelude.{⊤};

use crate::sides::{TOKEN, TURNS, connect_storing};
use crate::transfers::{Place, listen, use_up};
use ilpstream_connector::{ConnectorEnded, MOST_THREADS};
use ilpstream_serving::{HttpLink, TransferError};
use st_devices::Counting;
use st_hop_desk::Till;
use st_http::{Answerer, is_field_text, serve_one};
use st_ilp::Moment;
use st_links::{Booking, Keeper, Link};
use std::alloc::Global;
use std::net::{Net, TcpListener, TcpStream};
use std::process::Abort;
use std::sync::Wait;
use std::sync::atomic::{AtomicU64, Ordering};
use std::thread;
use std::thread::Threads;

/// Books in memory that refuse, with `REFUSAL`, what would make them more than `most` bookings.
#[derive(Drop)]
pub(crate) struct Noted<'a> {
    bookings: Vec<Booking>,
    /// How many bookings they have, for other threads.
    count: &'a AtomicU64,
    most: usize,
}

const REFUSAL: u8 = 115;

/// A till over such books, without a booking.
pub(crate) fn till_of<'a>(
    rt: &impl Abort,
    alloc: Global,
    count: &'a AtomicU64,
    most: usize,
) -> Till<Noted<'a>, Global> {
    let books = Noted {
        bookings: Vec::new(alloc),
        count,
        most,
    };
    Till::new(alloc, books, MOST_THREADS).expect(rt, "there is memory")
}

impl Noted<'_> {
    /// All claims, and all dues.
    pub(crate) fn sums(&self) -> (u64, u64) {
        let (mut claims, mut dues) = (0u64, 0u64);
        for booking in &self.bookings {
            claims = claims.saturating_add(booking.claim);
            dues = dues.saturating_add(booking.due);
        }
        (claims, dues)
    }
}

impl Keeper for Noted<'_> {
    ghost commits = { λ _ _ _. ⊤ };

    ghost keeps = { λ _ _ _ _. ⊤ };

    fn commit(&mut self, bookings: &[Booking]) -> Result<(), u8> {
        if bookings.len() > self.most.saturating_sub(self.bookings.len()) {
            return Err(REFUSAL);
        }
        if self.bookings.extend_from_slice(bookings).is_err() {
            return Err(REFUSAL);
        }
        self.count
            .store(self.bookings.len() as u64, Ordering::SeqCst);
        Ok(())
    }
}

/// A Prepare of 10 to the receiver's side, which expires as the year 9999 begins. Its condition is SHA-256 of 32 zero
/// bytes.
pub(crate) const PREPARE: &[u8; 67] = b"\x0c\x41\0\0\0\0\0\0\0\x0a99990101000000000\
\x66\x68\x7a\xad\xf8\x62\xbd\x77\x6c\x8f\xc1\x8b\x8e\x9f\x8e\x20\
\x08\x97\x14\x85\x6e\xe2\x33\xb3\x90\x2a\x59\x1d\x0d\x5f\x29\x25\x06test.b\0";

/// The Fulfill of 32 zero bytes, without data.
pub(crate) const FULFILL: &[u8; 35] =
    b"\x0d\x21\0\0\0\0\0\0\0\0\0\0\0\0\0\0\0\0\0\0\0\0\0\0\0\0\0\0\0\0\0\0\0\0\0";

/// Whether this is what the Fulfill of that Prepare books, with its proof.
fn is_booked(bookings: &[Booking]) -> bool {
    match bookings {
        [booking] => match booking.proof {
            Some(proof) => {
                (booking.payer, booking.claim) == (0, 10)
                    && (booking.payee, booking.due) == (1, 10)
                    && proof.fulfillment == [0; 32]
            }
            None => false,
        },
        _ => false,
    }
}

/// What answers each request with the Fulfill.
#[derive(Drop)]
struct Giving {
    alloc: Global,
}

impl Answerer for Giving {
    ghost gives = { λ _ _ _ _ _. ⊤ };

    fn answer(&mut self, _account: usize, _body: &[u8]) -> Option<Vec<u8>> {
        Vec::from_slice(self.alloc, FULFILL).ok()
    }
}

/// A receiver that fulfills what two connections bring.
fn fulfill_two(alloc: Global, listener: TcpListener) {
    for _ in 0..2u8 {
        if let Ok((stream, _)) = listener.accept() {
            let mut stream = Counting::new(stream);
            let mut giving = Giving { alloc };
            let _ = serve_one(alloc, alloc, &mut stream, &[TOKEN], &mut giving, TURNS);
        }
    }
}

/// What a connector at this place answers to the Prepare. `None` if it does not.
fn ask<N: Net + std::time::Clock>(net: &N, alloc: Global, host: &str) -> Option<Vec<u8>> {
    ask_with(net, alloc, host, PREPARE)
}

/// What it answers to these bytes.
pub(crate) fn ask_with<N: Net + std::time::Clock>(
    net: &N,
    alloc: Global,
    host: &str,
    prepare: &[u8],
) -> Option<Vec<u8>> {
    if !is_field_text(host) || !is_field_text(TOKEN) {
        return None;
    }
    let mut link = HttpLink::new(alloc, alloc, net, host, TOKEN, TURNS).ok()?;
    link.exchange(prepare, Moment::new(253_402_300_000_000)?)
        .ok()
}

/// Whether an answer is these bytes.
fn is(answer: &Option<Vec<u8>>, bytes: &[u8]) -> bool {
    match answer {
        Some(answer) => answer.as_slice() == bytes,
        None => false,
    }
}

/// Has three Prepares answered by a connector whose books accept one booking, and then uses up what both hosts still wait
/// for. Whether the first is fulfilled and the second not answered, each with one booking committed by then, and the third not
/// answered.
fn ask_thrice<N: Net + std::time::Clock>(
    net: &N,
    alloc: Global,
    hub: &str,
    end: &str,
    count: &AtomicU64,
) -> (bool, bool, bool) {
    let first = is(&ask(net, alloc, hub), FULFILL) && count.load(Ordering::SeqCst) == 1;
    let second = ask(net, alloc, hub).is_none() && count.load(Ordering::SeqCst) == 1;
    let third = ask(net, alloc, hub).is_none();
    use_up(net, end);
    use_up(net, hub);
    (first, second, third)
}

/// How such a connector ended, with this number of workers, and what the three Prepares found.
fn refuse_the_second<
    R: Net<Listener = TcpListener, Stream = TcpStream>
        + Abort
        + Threads
        + Wait
        + std::time::Clock
        + Sync,
>(
    rt: &R,
    alloc: Global,
    workers: u8,
    till: &Till<Noted<'_>, Global>,
    count: &AtomicU64,
) -> (Result<ConnectorEnded, TransferError>, (bool, bool, bool)) {
    let Place {
        listener: hub_listener,
        host: hub,
    } = listen(rt, alloc);
    let Place { listener, host } = listen(rt, alloc);
    let (hub, host) = (hub.as_str(), host.as_str());
    let (ended, (_, asked)) = thread::join(
        rt,
        || connect_storing(rt, alloc, hub_listener, host, workers, Some(till)),
        || {
            thread::join(
                rt,
                || fulfill_two(alloc, listener),
                || ask_thrice(rt, alloc, hub, host, count),
            )
        },
    );
    (ended, asked)
}

/// A Fulfill is passed back once it was committed. A refusal of the books ends the connector with their number, though its
/// other threads wait for connections.
#[test]
fn a_refusal_of_the_books_ends_a_connector(rt: HostRuntime) {
    let alloc = rt.alloc();
    for workers in [1, 4] {
        let count = AtomicU64::new(0);
        let till = till_of(&rt, alloc, &count, 1);
        let (ended, asked) = refuse_the_second(&rt, alloc, workers, &till, &count);
        let (books, refused) = till.into_books();
        assert!(rt;
            asked == (true, true, true),
            "{workers} workers: {} {} {}",
            asked.0,
            asked.1,
            asked.2
        );
        let result = ended.expect(&rt, "there is a hop").result;
        assert!(rt; result.err() == Some(TransferError::Books(REFUSAL)));
        assert!(rt; refused == Some(REFUSAL) && is_booked(&books.bookings));
    }
    assert!(rt; TransferError::Books(REFUSAL).number() == REFUSAL);
}
