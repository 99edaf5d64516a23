//! Books that threads share: one commit serves all bookings that wait.

ghost use Rattle.std.specs.Prelude.{◌≡◌, ◌≢◌, ℕ, true, false, None, Some, length, map};
ghost use Rattle.st_hop_desk.specs.Stored.{IsFateOf};
ghost use Rattle.st_hop_desk.specs.Stored as stored;

use crate::board::{Batch, Board, Ended, Turn};
use crate::stored::{Fate, is_same};
use st_links::{Booking, Keeper, commit_all};
use std::alloc::{AllocError, Allocator};
use std::sync::{Condvar, Mutex, Wait};

/// What the till's threads share in addition to the board: the books, and the first number with which they refused.
#[derive(Drop)]
struct Drawer<K: Keeper> {
    books: K,
    refused: Option<u8>,
}

/// Books under a lock of their own, with a board of bookings that wait. The first thread that finds no commit under way
/// commits all that wait, by one commit, while the others wait for it. After a refusal nothing is committed any more: what the
/// books have of the bookings that were refused is read by the next process, and known to nobody before.
#[derive(Drop)]
pub struct Till<K: Keeper, A: Allocator> {
    board: Mutex<Board<A>>,
    turned: Condvar,
    drawer: Mutex<Drawer<K>>,
    alloc: A,
}

impl<K: Keeper, A: Allocator + Copy> Till<K, A> {
    /// A till over these books, for `threads` threads at once. Fails if memory is refused.
    pub fn new(alloc: A, books: K, threads: usize) -> Result<Till<K, A>, AllocError>
    where
        K: Drop,
    {
        let board = Board::new(alloc, threads)?;
        Ok(Till {
            board: Mutex::new(board),
            turned: Condvar::new(),
            drawer: Mutex::new(Drawer {
                books,
                refused: None,
            }),
            alloc,
        })
    }

    /// The books, and the first number with which they refused a booking, once no thread shares them.
    pub fn into_books(self) -> (K, Option<u8>) {
        let Till {
            board: _,
            turned: _,
            drawer,
            alloc: _,
        } = self;
        drawer.into_inner().into_parts()
    }
}

impl<K: Keeper> Drawer<K> {
    /// The books, and the first number with which they refused.
    fn into_parts(self) -> (K, Option<u8>)
        ensures { result ≡ (self.books, self.refused) }
    {
        let Drawer { books, refused } = self;
        (books, refused)
    }

    /// The first number with which the books refused.
    fn refused(&self) -> Option<u8>
        ensures { result ≡ self.now.refused }
    {
        self.refused
    }
}

// Each function here that acquires a lock releases it before it returns.

fn put<K: Keeper, A: Allocator + Copy>(
    rt: &impl Wait,
    till: &Till<K, A>,
    booking: Booking,
) -> Option<usize> {
    till.board.lock(rt).put(booking)
}

/// Waits for the end of a commit that is under way, unless the thread's fate is known already.
fn turn<K: Keeper, A: Allocator + Copy, R: Wait>(
    rt: &R,
    till: &Till<K, A>,
    place: usize,
) -> Turn<A> {
    let mut board = till
        .turned
        .wait_while(rt, till.board.lock(rt), |board| board.is_waiting(place));
    board.turn(till.alloc, place)
}

/// Commits the bookings of a batch, once, unless the books refused before.
fn commit_batch<K: Keeper, A: Allocator + Copy>(drawer: &mut Drawer<K>, batch: Batch<A>) -> Ended<A>
    ensures shut { drawer.old.refused ≢ None → (drawer.new ≡ drawer.old) × (result.tokens.items ≡ batch.tokens.items) }
    ensures uneven { length batch.tokens.items ≢ length batch.bookings.items → (drawer.new ≡ drawer.old) × (result.tokens.items ≡ batch.tokens.items) }
    ensures once { drawer.old.refused ≡ None → length batch.tokens.items ≡ length batch.bookings.items → drawer.new.refused ≡ None
        → K.commits drawer.old.books batch.bookings.items drawer.new.books × (result.tokens.items ≡ map Some batch.bookings.items) }
    ensures kept { drawer.old.refused ≡ None → length batch.tokens.items ≡ length batch.bookings.items → (number : ℕ) → drawer.new.refused ≡ Some number
        → K.keeps drawer.old.books batch.bookings.items drawer.new.books number × (result.tokens.items ≡ batch.tokens.items) }
    // What the books refused now is not known to be left out.
    ensures known { result.is_known ≡ true → drawer.new.refused ≡ drawer.old.refused }
    ensures unknown { result.is_known ≡ false → drawer.old.refused ≡ None }
    ensures places { result.places.items ≡ batch.places.items }
{
    let Batch {
        bookings,
        mut tokens,
        places,
    } = batch;
    let mut is_known = true;
    if drawer.refused.is_none() && tokens.len() == bookings.len() {
        match commit_all(
            &mut drawer.books,
            bookings.as_slice(),
            tokens.as_mut_slice(),
        ) {
            Ok(()) => {}
            Err(number) => {
                drawer.refused = Some(number);
                is_known = false;
            }
        }
    }
    Ended {
        tokens,
        places,
        is_known,
    }
}

/// Commits a batch under the lock of the books alone, so that bookings can be put meanwhile.
fn commit<K: Keeper, A: Allocator + Copy>(
    rt: &impl Wait,
    till: &Till<K, A>,
    batch: Batch<A>,
) -> Ended<A> {
    commit_batch(&mut *till.drawer.lock(rt), batch)
}

fn finish<K: Keeper, A: Allocator + Copy>(rt: &impl Wait, till: &Till<K, A>, ended: Ended<A>) {
    till.board.lock(rt).finish(ended);
    till.turned.notify_all();
}

/// The fate, if it is that of this booking: of the token of another one nothing is known.
fn own_fate(fate: Fate, booking: Booking) -> Fate
    ensures own { IsFateOf booking result }
    ensures told { result ≡ stored.own_fate fate booking }
{
    match fate {
        Fate::Stored(token) if is_same(token.booking(), booking) => Fate::Stored(token),
        Fate::Stored(_) => Fate::Unknown,
        Fate::Refused => Fate::Refused,
        Fate::Unknown => Fate::Unknown,
    }
}

/// Has the books of a till commit a booking, together with those of other threads that wait, and gives its fate. It is unknown
/// if the books refused the commit that had it. It is not stored if they refused one before, if memory is refused, or
/// if more threads wait than the till is for. It waits for the commit.
pub fn deposit<K: Keeper, A: Allocator + Copy, R: Wait>(
    rt: &R,
    till: &Till<K, A>,
    booking: Booking,
) -> Fate
    ensures { IsFateOf booking result }
{
    let Some(place) = put(rt, till, booking) else {
        return Fate::Refused;
    };
    for _ in rt.forever() {
        match turn(rt, till, place) {
            Turn::Told(fate) => return own_fate(fate, booking),
            Turn::Leads(batch) => finish(rt, till, commit(rt, till, batch)),
        }
    }
    Fate::Unknown
}

/// The first number with which the books of a till refused a booking. After it the process has to end.
pub fn refused_at<K: Keeper, A: Allocator + Copy>(rt: &impl Wait, till: &Till<K, A>) -> Option<u8> {
    till.drawer.lock(rt).refused()
}
