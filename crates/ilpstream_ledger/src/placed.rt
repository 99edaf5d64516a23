//! Books that are asked by a table's accounts.

ghost use Rattle.std.specs.Prelude.{◌≡◌, IfOk, map};
ghost use Rattle.ilpstream_ledger.specs.Placed.{CommitsPlaced, KeepsPlaced, in_books, place_at};

use sqlite_trees::store::Alter;
use st_hop_books::{Books, BooksError};
use st_links::{Booking, Keeper};
use std::alloc::{AllocError, Global};
use std::marker::Model;

/// Books, and the place in them of each account of a table. It accepts bookings of the table's accounts.
pub struct Placed<S: Alter> {
    books: Books<S>,
    places: Vec<usize>,
    // Whether what proves a claim is kept.
    keeps: bool,
    alloc: Global,
}

impl<S: Alter> Model for Placed<S> {
    ghost use Rattle.ilpstream_ledger.specs.Placed.{Placing};

    ghost Value = { Placing S };

    ghost view = { λ p. record { books = p.books; places = p.places.items; keeps = p.keeps } };
}

// It is written out, so that a caller does not prove again how each part is dropped.
impl<S: Alter + Drop> Drop for Placed<S> {
    fn drop(self) {
        let Placed {
            books: _,
            places: _,
            keeps: _,
            alloc: _,
        } = self;
    }
}

impl<S: Alter> Placed<S> {
    /// Books with these places of the table's accounts, as `place` gives them. They keep the fulfillments that prove claims, if
    /// they are asked to.
    pub fn new(
        alloc: Global,
        books: Books<S>,
        places: Vec<usize>,
        keeps_fulfillments: bool,
    ) -> Placed<S>
        ensures { result ≡ record { books = books; places = places.items; keeps = keeps_fulfillments } }
    {
        Placed {
            books,
            places,
            keeps: keeps_fulfillments,
            alloc,
        }
    }

    /// The place in the books of the table's account of this number: none of the books' if the table lacks it.
    fn place_at(&self, account: usize) -> usize
        ensures { result ≡ place_at self.now account }
    {
        match self.places.get(account) {
            Some(at) => *at,
            None => self.books.amounts().len(),
        }
    }

    /// A booking of accounts of the table, as the books need it.
    fn in_books(&self, booking: Booking) -> Booking
        ensures { result ≡ in_books self.now booking }
    {
        Booking {
            payer: self.place_at(booking.payer),
            claim: booking.claim,
            payee: self.place_at(booking.payee),
            due: booking.due,
            proof: if self.keeps { booking.proof } else { None },
        }
    }

    fn all_in_books(&self, bookings: &[Booking]) -> Result<Vec<Booking>, AllocError>
        ensures { IfOk result (λ all. all.items ≡ map (in_books self.now) bookings.now) }
    {
        let mut all = Vec::new(self.alloc);
        for booking in bookings {
            all.push(self.in_books(*booking))?;
        }
        Ok(all)
    }
}

impl<S: Alter> Keeper for Placed<S> {
    ghost commits = { CommitsPlaced S.Store };

    ghost keeps = { KeepsPlaced S.Store };

    fn commit(&mut self, bookings: &[Booking]) -> Result<(), u8> {
        match self.all_in_books(bookings) {
            Ok(bookings) => self.books.commit(bookings.as_slice()),
            Err(_) => Err(BooksError::NoMemory.number()),
        }
    }
}
