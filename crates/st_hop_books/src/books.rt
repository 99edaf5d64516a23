//! Books that are open.

ghost use Rattle.std.specs.Prelude.{◌≡◌, ◌≢◌, ◌+◌, ◌<◌, ◌≤◌, None, length, slice_get, IfOk, IfErr, IfSome, IsTrue, OnOk, OnErr};
ghost use Rattle.std.specs.List.{AllByRecursion};
ghost use Rattle.sqlite_trees.specs.Tree.{Trees};
ghost use Rattle.sqlite_trees.specs.View.{IsClean};
ghost use Rattle.sqlite_trees.specs.declared.error.StoreError.{StoreError};
ghost use Rattle.sqlite_store.specs.FileStore.{view, recovers, log_frames, HasSpilled};
ghost use Rattle.st_hop_books.specs.Errors.{number, told};
ghost use Rattle.st_hop_books.specs.Table.{AreDistinct};
ghost use Rattle.st_hop_books.specs.Payments.{name_at, Finds, IsCovered};
ghost use Rattle.st_hop_books.specs.Standing.{Holds, trail_in};
ghost use Rattle.st_hop_books.specs.Commits.{Commits, Makes, Refuses, Rereads, IsBecause, KeepsFor, after_bookings, after_name, after_start, after_payment, bookings_excuses, name_excuses, start_excuses, entering_excuses};

use crate::balance::{Amounts, Entry, Kind, Payment, Tally};
use crate::error::BooksError;
use crate::looking::find;
use crate::names::{place_of, with_account};
use crate::paying::{commit_payment, next_tally, text_of};
use crate::table::{commit_account, commit_bookings, commit_starts};
use sqlite_disk::Disk;
use sqlite_store::FileStore;
use sqlite_trees::store::Alter;
use sqlite_value::row::Row;
use sqlite_value::value::Bytes;
use st_links::{BalanceSide, Booking, Keeper};
use std::alloc::Global;
use std::marker::Model;

/// The books: accounts by name, with what each owes and is owed, and the count of starts, all of it in a store.
pub struct Books<S: Alter> {
    store: S,
    starts: u32,
    names: Vec<Bytes>,
    amounts: Vec<Amounts>,
    // The payments and the fulfillments.
    tally: Tally,
    row: Row,
    alloc: Global,
}

impl<S: Alter> Model for Books<S> {
    ghost use Rattle.std.specs.Prelude.{◌≡◌, length};
    ghost use Rattle.st_hop_books.specs.Table.{AreDistinct};
    ghost use Rattle.st_hop_books.specs.Standing.{Kept, Holds, trail_in};

    ghost Value = { Kept S };

    ghost view = { λ b. record { store = b.store; starts = b.starts; names = b.names.items; amounts = b.amounts.items } };

    ghost invariant = { λ b. Holds (S.Store.view b.store) b.starts b.names.items b.amounts.items (trail_in (S.Store.view b.store)) b.tally
        × (length b.names.items ≡ length b.amounts.items) × AreDistinct b.names.items };
}

// It is written out, so that a caller does not prove again how each part is dropped.
impl<S: Alter + Drop> Drop for Books<S> {
    fn drop(self) {
        let Books {
            store: _,
            starts: _,
            names: _,
            amounts: _,
            tally: _,
            row: _,
            alloc: _,
        } = self;
    }
}

impl<S: Alter> Books<S> {
    /// Books over a store that has their lines.
    pub(crate) fn over(
        alloc: Global,
        store: S,
        row: Row,
        starts: u32,
        names: Vec<Bytes>,
        amounts: Vec<Amounts>,
        tally: Tally,
    ) -> Books<S>
        requires holds { Holds (S.Store.view store) starts names.items amounts.items (trail_in (S.Store.view store)) tally }
        requires named { length names.items ≡ length amounts.items }
        requires distinct { AreDistinct names.items }
        ensures { result ≡ record { store = store; starts = starts; names = names.items; amounts = amounts.items } }
    {
        Books {
            store,
            starts,
            names,
            amounts,
            tally,
            row,
            alloc,
        }
    }

    /// How often a connector was started with these books.
    pub fn starts(&self) -> u64
        ensures { result ≡ self.now.starts }
    {
        self.starts as u64
    }

    /// What is owed, by account.
    pub fn amounts(&self) -> &[Amounts]
        ensures value { result.now ≡ self.now.amounts }
        ensures named { length self.now.names ≡ length self.now.amounts }
    {
        self.amounts.as_slice()
    }

    /// The name of an account.
    pub fn name(&self, at: usize) -> Option<&[u8]>
        ensures named { IfSome result (λ name. slice_get self.now.names at ≡ Some name.now) }
        ensures missing { result ≡ None → length self.now.names ≤ at }
    {
        match self.names.get(at) {
            Some(name) => Some(name.as_slice()),
            None => None,
        }
    }

    /// The place of the account of a name. No two accounts have one name.
    pub fn place_of(&self, name: &str) -> Option<usize>
        ensures found { IfSome result (λ at. slice_get self.now.names at ≡ Some name.now) }
        ensures missing { result ≡ None → AllByRecursion (λ other. other ≢ name.now) self.now.names }
        ensures distinct { AreDistinct self.now.names }
    {
        place_of(self.names.as_slice(), name.as_bytes())
    }

    /// Counts one start more, and commits the count. To be called once, before the first Prepare is accepted. Returns the
    /// count.
    pub fn begin_life(&mut self) -> Result<u64, BooksError>
        ensures count { IfOk result (λ n. n ≡ self.old.starts + 1) }
        ensures begun { OnOk result (Makes S.Store self.old (after_start S.Store self.old) self.new) }
        ensures refused { OnErr result (Refuses S.Store self.old (after_start S.Store self.old) self.new) }
        ensures cause { IfErr result (IsBecause S.Store self.old self.new (start_excuses self.old.starts)) }
    {
        let Some(next) = self.starts.checked_add(1) else {
            return Err(BooksError::TooMuch);
        };
        let Books {
            store,
            starts,
            names,
            amounts,
            tally,
            ..
        } = self;
        commit_starts(
            store,
            *starts,
            next,
            *tally,
            names.as_slice(),
            amounts.as_slice(),
        )?;
        *starts = next;
        Ok(next as u64)
    }

    /// Commits bookings, all of them or none, in one sync of the disk. A booking with a proof leaves a line of it. At `Ok` each
    /// crash leaves books that have them; at an error the books stay as before.
    pub fn book(&mut self, bookings: &[Booking]) -> Result<(), BooksError>
        ensures committed { OnOk result (Commits S.Store self.old bookings.now self.new) }
        ensures refused { OnErr result (Refuses S.Store self.old (after_bookings S.Store self.old bookings.now) self.new) }
        ensures cause { IfErr result (IsBecause S.Store self.old self.new (bookings_excuses S.Store self.old bookings.now)) }
    {
        let mut draft = Vec::from_slice(self.alloc, self.amounts.as_slice())?;
        let mut later = self.tally;
        let Books {
            store,
            starts,
            names,
            amounts,
            tally,
            row,
            ..
        } = self;
        commit_bookings(
            store,
            row,
            *starts,
            &mut later,
            names.as_slice(),
            draft.as_mut_slice(),
            bookings,
        )?;
        *amounts = draft;
        *tally = later;
        Ok(())
    }

    /// Takes a payment outside Interledger off what an account owes, or is owed, or adds an adjustment; and keeps a line of it
    /// with its reference, which may be empty, and its moment, or the last line's if that is later. Both are one commit.
    /// Refuses with `TooLittle` a payment above the sum that it is taken off.
    pub fn pay(&mut self, payment: Payment, reference: &str) -> Result<(), BooksError>
        ensures covered { OnOk result (IsCovered self.old.amounts payment) }
        ensures paid { OnOk result (Makes S.Store self.old (after_payment S.Store self.old payment reference.now) self.new) }
        ensures refused { OnErr result (Refuses S.Store self.old (after_payment S.Store self.old payment reference.now) self.new) }
        ensures cause { IfErr result (IsBecause S.Store self.old self.new (entering_excuses S.Store self.old payment reference.now)) }
    {
        // No disk has room for that number of payments.
        let Some(next) = next_tally(self.tally, payment) else {
            return Err(BooksError::NoMemory);
        };
        let text = text_of(self.alloc, payment.kind, payment.side, reference)?;
        let mut draft = Vec::from_slice(self.alloc, self.amounts.as_slice())?;
        let Books {
            store,
            starts,
            names,
            amounts,
            tally,
            row,
            ..
        } = self;
        commit_payment(
            store,
            row,
            *starts,
            names.as_slice(),
            draft.as_mut_slice(),
            *tally,
            payment,
            text.as_slice(),
        )?;
        *amounts = draft;
        *tally = next;
        Ok(())
    }

    /// What was entered under a reference for the account at a place, on one side: a payment or an adjustment. The books stay.
    pub fn entered(
        &mut self,
        account: usize,
        side: BalanceSide,
        reference: &str,
    ) -> Result<Option<Entry>, BooksError>
        requires { account < length self.old.names }
        ensures found { IfOk result (λ e. IsClean (S.Store.view self.new.store)
            → Finds (trail_in (S.Store.view self.old.store)).paid (name_at self.old.names account) side reference.now e) }
        ensures same { Rereads S.Store self.old self.new }
        ensures cause { IfErr result (λ e. (why : StoreError) × (e ≡ told why)) }
    {
        let paid = text_of(self.alloc, Kind::Paid, side, reference)?;
        let adjusted = text_of(self.alloc, Kind::Adjusted, side, reference)?;
        let Books {
            store,
            names,
            row,
            ..
        } = self;
        let found = find(
            store,
            row,
            names[account].as_slice(),
            paid.as_slice(),
            adjusted.as_slice(),
        );
        // The transaction ends, in which the lines were read.
        store.rollback();
        found
    }

    /// Adds an account of a new name, by which and to which nothing is owed, and commits it. Gives its place.
    pub fn add(&mut self, name: &str) -> Result<usize, BooksError>
        ensures place { IfOk result (λ at. at ≡ length self.old.names) }
        ensures added { OnOk result (Makes S.Store self.old (after_name S.Store self.old name.now) self.new) }
        ensures refused { OnErr result (Refuses S.Store self.old (after_name S.Store self.old name.now) self.new) }
        ensures cause { IfErr result (IsBecause S.Store self.old self.new (name_excuses (S.Store.view self.old.store) self.old.names name.now)) }
    {
        let at = self.names.len();
        match place_of(self.names.as_slice(), name.as_bytes()) {
            Some(_) => return Err(BooksError::NameTaken),
            None => {}
        }
        let (named, owed) = (self.names.as_slice(), self.amounts.as_slice());
        let grown = with_account(self.alloc, named, owed, name.as_bytes())?;
        let Books {
            store,
            starts,
            names,
            amounts,
            tally,
            row,
            ..
        } = self;
        commit_account(
            store,
            row,
            *starts,
            *tally,
            names.as_slice(),
            amounts.as_slice(),
            &grown.name,
        )?;
        *names = grown.names;
        *amounts = grown.amounts;
        Ok(at)
    }
}

impl<D: Disk + Drop> Books<FileStore<D>> {
    /// Copies the log into the database file, and empties it. A crash in it leaves these books. If it fails, the books are
    /// shut, and have to be opened again.
    pub(crate) fn folded(self) -> Result<Books<FileStore<D>>, BooksError>
        ensures sums { IfOk result (λ b. (b.starts ≡ self.starts) × (b.names ≡ self.names) × (b.amounts ≡ self.amounts)) }
        ensures clean { IfOk result (λ b. IsClean (view b.store) → IsClean (view self.store)) }
        ensures same { IfOk result (λ b. IsClean (view b.store) → IsTrue (view b.store).is_open × (view b.store ≡ view self.store)) }
        ensures crash { IfOk result (λ b. (db : Trees) → recovers b.store db → recovers self.store db) }
        ensures empty { IfOk result (λ b. ¬ HasSpilled self.store → log_frames b.store ≡ 0) }
    {
        let Books {
            mut store,
            starts,
            names,
            amounts,
            tally,
            row,
            alloc,
        } = self;
        store.checkpoint()?;
        Ok(Books::over(alloc, store, row, starts, names, amounts, tally))
    }
}

impl<S: Alter> Keeper for Books<S> {
    ghost commits = { Commits S.Store };

    ghost keeps = { KeepsFor S.Store };

    fn commit(&mut self, bookings: &[Booking]) -> Result<(), u8> {
        match self.book(bookings) {
            Ok(()) => Ok(()),
            Err(error) => Err(error.number()),
        }
    }
}
