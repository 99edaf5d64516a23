//! A desk with one share out, and what it answers.
ghost use Rattle.std.specs.Prelude.{◌≡◌};

use st_devices::Counted;
use st_hop::{Account, HopError, HopState, Route};
use st_hop_desk::{AccountShares, Books, Fate, HopDesk, NoBooks, Owed, Served, serve};
use st_ilp::Moment;
use st_links::{Booking, Clock, Link, LinkFault, Proof};
use std::alloc::{Allocator, Global};
use std::marker::Brand;
use std::process::Abort;
use std::sync::ledger::{Blank, Ledger};
use std::sync::{Mutex, Wait};
use std::test::Fail;

/// A Prepare of 5 to `example.b`, which expires at 2024-01-02 03:04:05.006; its condition is SHA-256 of 32 zero bytes.
pub(crate) const PREPARE: &[u8; 70] = b"\x0c\x44\0\0\0\0\0\0\0\x0520240102030405006\
\x66\x68\x7a\xad\xf8\x62\xbd\x77\x6c\x8f\xc1\x8b\x8e\x9f\x8e\x20\
\x08\x97\x14\x85\x6e\xe2\x33\xb3\x90\x2a\x59\x1d\x0d\x5f\x29\x25\x09example.b\0";

/// The same as it is forwarded, a second less.
const ONWARD: &[u8; 70] = b"\x0c\x44\0\0\0\0\0\0\0\x0520240102030404006\
\x66\x68\x7a\xad\xf8\x62\xbd\x77\x6c\x8f\xc1\x8b\x8e\x9f\x8e\x20\
\x08\x97\x14\x85\x6e\xe2\x33\xb3\x90\x2a\x59\x1d\x0d\x5f\x29\x25\x09example.b\0";

/// When the forwarded Prepare expires: 2024-01-02 03:04:04.006, in milliseconds since the start of 1970.
pub(crate) const EXPIRY: i64 = 1_704_164_644_006;

/// The Fulfill of 32 zero bytes, without data.
pub(crate) const FULFILL: &[u8; 35] =
    b"\x0d\x21\0\0\0\0\0\0\0\0\0\0\0\0\0\0\0\0\0\0\0\0\0\0\0\0\0\0\0\0\0\0\0\0\0";

/// A Reject of the neighbour `example.b`.
const REJECT: &[u8; 17] = b"\x0e\x0fF02\x09example.b\0\0";

/// The hop's Reject if memory was refused, and if a neighbour gave no answer.
pub(crate) const T00: &[u8; 17] = b"\x0e\x0fT00\x09example.c\0\0";

pub(crate) const T01: &[u8; 17] = b"\x0e\x0fT01\x09example.c\0\0";

/// The hop's Reject if the Fulfill arrived too late.
const R00: &[u8; 17] = b"\x0e\x0fR00\x09example.c\0\0";

/// The hop `example.c` with nothing owed, account 0, and account 1 with the route `example.b`. Each may owe 100.
pub(crate) fn new_hop<A: Allocator + Copy>(alloc: A) -> Result<HopState<A>, HopError> {
    let account = Account {
        limit: 100,
        max_packet: 1000,
    };
    let routes = [Route::one_to_one("example.b", 1)];
    HopState::new(alloc, "example.c", &[account, account], &routes)
}

/// One moment, long before the Prepare expires.
#[derive(Drop)]
pub(crate) struct Still(Moment);

pub(crate) fn stopped_clock(rt: &impl Abort) -> Still {
    Still(Moment::new(0).expect(rt, "a moment"))
}

impl Clock for Still {
    fn now(&mut self) -> Moment {
        self.0
    }
}

/// A moment long before the Prepare expires, at which it arrives, and another one from the second reading on.
#[derive(Drop)]
struct Moving {
    now: Moment,
    then: Moment,
}

fn moving_clock(rt: &impl Abort, then: i64) -> Moving {
    Moving {
        now: Moment::new(0).expect(rt, "a moment"),
        then: Moment::new(then).expect(rt, "a moment"),
    }
}

impl Clock for Moving {
    fn now(&mut self) -> Moment {
        let now = self.now;
        self.now = self.then;
        now
    }
}

/// A neighbour in memory: it gives its answer, if it has one, to the Prepare as it is forwarded.
#[derive(Drop)]
pub(crate) struct Neighbour<'a, A: Allocator + Copy> {
    pub(crate) alloc: A,
    pub(crate) answer: Option<&'a [u8]>,
    pub(crate) asked: u64,
}

impl<A: Allocator + Copy> Counted for Neighbour<'_, A> {
    ghost fault_count = { λ _. 0 };

    fn faults(&self) -> u64 {
        0
    }
}

impl<A: Allocator + Copy> Link<A> for Neighbour<'_, A> {
    fn exchange(&mut self, bytes: &[u8], by: Moment) -> Result<Vec<u8, A>, LinkFault> {
        self.asked = self.asked.saturating_add(1);
        match self.answer {
            Some(answer) if bytes == ONWARD.as_slice() && by.ms() == EXPIRY => {
                Vec::from_slice(self.alloc, answer).map_err(|_| LinkFault::NoMemory)
            }
            _ => Err(LinkFault::Peer),
        }
    }
}

/// Shares of a desk that has some left.
pub(crate) fn shares_of<C: Ledger, D: Ledger, A: Allocator + Copy>(
    rt: &impl Abort,
    desk: &mut HopDesk<C, D, A>,
) -> AccountShares<C, D> {
    match desk.shares() {
        Ok(shares) => shares,
        Err(refused) => panic!(rt; "refused {}", refused.number()),
    }
}

/// Neighbours with this answer, one for each account.
fn neighbours<'a>(
    rt: &impl Abort,
    alloc: Global,
    answer: Option<&'a [u8]>,
) -> Vec<Neighbour<'a, Global>> {
    let mut links = Vec::new(alloc);
    for _ in 0..2u8 {
        let link = Neighbour {
            alloc,
            answer,
            asked: 0,
        };
        assert!(rt; links.push(link).is_ok());
    }
    links
}

/// What one thread is answered over these links.
fn ask<C: Ledger, D: Ledger, R: Wait + Abort>(
    rt: &R,
    desk: &Mutex<HopDesk<C, D, Global>>,
    shares: &Mutex<AccountShares<C, D>>,
    links: &mut Vec<Neighbour<'_, Global>>,
    books: &mut Noted,
    clock: &mut Moving,
) -> Option<Vec<u8>> {
    match serve(rt, desk, shares, 0, PREPARE, links, books, clock) {
        Ok(Served { account, answer }) => {
            assert!(rt; account == 0);
            answer
        }
        Err(refused) => panic!(rt; "refused {}", refused.number()),
    }
}

/// Whether `held` is reserved of account 0, which owes `owed`, the same is due to account 1, and account 1 owes nothing.
fn is_booked<C: Ledger, D: Ledger>(desk: &HopDesk<C, D, Global>, held: u64, owed: u64) -> bool {
    let hop = desk.hop();
    hop.held(0) == Ok(held)
        && hop.claims(0) == Ok(owed)
        && hop.dues(1) == Ok(owed)
        && hop.claims(1) == Ok(0)
}

/// What one thread is answered by a new desk over these links, and what is owed then. The amount stays reserved if there is no
/// answer.
fn one_serves<C: Ledger, D: Ledger, R: Wait + Abort>(
    rt: &R,
    alloc: Global,
    hop: HopState<Global>,
    claims: Blank,
    dues: Blank,
    links: &mut Vec<Neighbour<'_, Global>>,
    books: &mut Noted,
    clock: &mut Moving,
) -> (Option<Vec<u8>>, Owed)
    requires claims { (claims.name ≡ C.name) × (claims.parts ≡ C.parts) × (claims.parts ≡ 64) }
    requires dues { (dues.name ≡ D.name) × (dues.parts ≡ D.parts) × (dues.parts ≡ 64) }
{
    let mut desk = HopDesk::<C, D, Global>::new(alloc, hop, claims, dues);
    let shares = Mutex::new(shares_of(rt, &mut desk));
    let desk = Mutex::new(desk);
    let told = ask(rt, &desk, &shares, links, books, clock);
    let mut desk = desk.into_inner();
    let owed = gathered(rt, alloc, &mut desk, shares.into_inner());
    let held = if told.is_some() { 0 } else { 5 };
    assert!(rt; is_booked(&desk, held, owed.claims));
    (told, owed)
}

/// What is owed at a desk of which one share is out.
pub(crate) fn gathered<C: Ledger, D: Ledger, A: Allocator + Copy>(
    rt: &impl Abort,
    alloc: A,
    desk: &mut HopDesk<C, D, A>,
    shares: AccountShares<C, D>,
) -> Owed {
    let mut all = Vec::new(alloc);
    assert!(rt; all.push(shares).is_ok());
    match desk.gather(all) {
        Ok(owed) => owed,
        Err((refused, _)) => panic!(rt; "refused {}", refused.number()),
    }
}

/// What books do.
#[derive(Clone, Copy, Debug, PartialEq, Eq)]
enum Way {
    Store,
    Refuse,
    /// They do not know whether they stored it.
    Fail,
}

/// Books that note what they are to store.
#[derive(Drop)]
struct Noted {
    way: Way,
    noted: Option<Booking>,
}

impl Books for Noted {
    fn store(&mut self, booking: Booking) -> Fate {
        self.noted = Some(booking);
        match self.way {
            Way::Store => NoBooks.store(booking),
            Way::Refuse => Fate::Refused,
            Way::Fail => Fate::Unknown,
        }
    }
}

/// What proves its claim: its condition, which is SHA-256 of 32 zero bytes, those bytes, and when they came.
const PROOF: Proof = Proof {
    condition: *b"\x66\x68\x7a\xad\xf8\x62\xbd\x77\x6c\x8f\xc1\x8b\x8e\x9f\x8e\x20\
\x08\x97\x14\x85\x6e\xe2\x33\xb3\x90\x2a\x59\x1d\x0d\x5f\x29\x25",
    fulfillment: [0; 32],
    moment: LAST,
};

/// What is booked of the Prepare if it is fulfilled.
const BOOKING: Booking = Booking {
    payer: 0,
    claim: 5,
    payee: 1,
    due: 5,
    proof: Some(PROOF),
};

/// The last moment at which a Fulfill is in time.
const LAST: i64 = EXPIRY - 1;

/// A neighbour's answer, whether there is a link to it, what the books do, when the answer arrives, what is returned, the
/// amount that is booked then, and what was to be stored.
type Row = (
    Option<&'static [u8]>,
    bool,
    Way,
    i64,
    Option<&'static [u8]>,
    u64,
    Option<Booking>,
);

/// A Fulfill is stored and booked, up to the millisecond before the forwarded Prepare expires. A later one is not, nor
/// one that was not stored, a Reject, a neighbour without an answer and a missing link. If nobody knows whether it is stored
/// there is no answer.
#[test]
fn a_thread_serves(rt: HostRuntime) -> Result<(), Fail> {
    let yes = Some(BOOKING);
    let rows: [Row; 7] = [
        (Some(FULFILL), true, Way::Store, LAST, Some(FULFILL), 5, yes),
        (Some(FULFILL), true, Way::Store, EXPIRY, Some(R00), 0, None),
        (Some(FULFILL), true, Way::Refuse, LAST, Some(T01), 0, yes),
        (Some(FULFILL), true, Way::Fail, LAST, None, 0, yes),
        (Some(REJECT), true, Way::Store, LAST, Some(REJECT), 0, None),
        (None, true, Way::Store, LAST, Some(T01), 0, None),
        (Some(FULFILL), false, Way::Store, LAST, Some(T01), 0, None),
    ];
    let alloc = rt.alloc();
    for (answer, has_links, way, then, want, amount, noted) in rows {
        let mut links = if has_links {
            neighbours(&rt, alloc, answer)
        } else {
            Vec::new(alloc)
        };
        let mut books = Noted { way, noted: None };
        let (told, owed) = one_serves::<Brand, Brand, _>(
            &rt,
            alloc,
            new_hop(alloc)?,
            Blank::new(64),
            Blank::new(64),
            &mut links,
            &mut books,
            &mut moving_clock(&rt, then),
        );
        let is_wanted = match (&told, want) {
            (Some(told), Some(want)) => told.as_slice() == want,
            (told, want) => told.is_none() && want.is_none(),
        };
        assert!(rt; is_wanted);
        assert!(rt; (owed.claims, owed.dues) == (amount, amount));
        assert!(rt; books.noted == noted);
    }
    Ok(())
}

/// What is owed at a desk over a hop that was restored from books, before anything is settled there.
fn owed_before<C: Ledger, D: Ledger, R: Wait + Abort>(
    rt: &R,
    alloc: Global,
    hop: HopState<Global>,
    claims: Blank,
    dues: Blank,
) -> Owed
    requires claims { (claims.name ≡ C.name) × (claims.parts ≡ C.parts) × (claims.parts ≡ 64) }
    requires dues { (dues.name ≡ D.name) × (dues.parts ≡ D.parts) × (dues.parts ≡ 64) }
{
    let mut desk = HopDesk::<C, D, Global>::new(alloc, hop, claims, dues);
    let shares = shares_of(rt, &mut desk);
    gathered(rt, alloc, &mut desk, shares)
}

/// A desk has what its hop's books have, and the shares have nothing of it.
#[test]
fn a_desk_has_what_was_booked_before(rt: HostRuntime) -> Result<(), Fail> {
    let alloc = rt.alloc();
    let account = Account {
        limit: 100,
        max_packet: 1000,
    };
    let both = [account, account];
    let hop = HopState::restored(alloc, "example.c", &both, &[], &[7, 2], &[1, 9], 1 << 44)?;
    let owed = owed_before::<Brand, Brand, _>(&rt, alloc, hop, Blank::new(64), Blank::new(64));
    assert!(rt; (owed.claims, owed.dues) == (9, 10));
    Ok(())
}
