//! What waits for a commit of the books.

ghost use Rattle.std.specs.Prelude.{◌≡◌, ◌≢◌, ◌∷◌, ◌++◌, ℕ, [], true, false, IfOk, None, Some, length, replicate, slice_get, slice_set};
ghost use Rattle.st_hop_desk.specs.Board.{IsBatch, IsLed, IsTurn, TakesAt, lists, with_told, waits_at, IsSameBatch, IsPutAt};
ghost use Rattle.st_hop_desk.specs.declared.board.Slot.TheVariants as slot;
ghost use Rattle.st_hop_desk.specs.declared.stored.Fate as fates;

use crate::stored::Fate;
use st_links::{Booked, Booking};
use std::alloc::{AllocError, Allocator};
use std::mem;

/// The content of one place of the board.
#[derive(Drop)]
enum Slot {
    Empty,
    /// The booking waits for the next commit.
    Waits(Booking),
    /// A commit has it.
    Away,
    /// What became of it.
    Told(Fate),
}

/// What one commit stores, with the places of the bookings on the board.
#[derive(Drop)]
pub(crate) struct Batch<A: Allocator> {
    pub(crate) bookings: Vec<Booking, A>,
    pub(crate) tokens: Vec<Option<Booked>, A>,
    pub(crate) places: Vec<usize, A>,
}

/// What a commit made of a batch: the tokens of its bookings, and the places of these. A booking without a token is not stored
/// if `is_known`; otherwise it may be.
#[derive(Drop)]
pub(crate) struct Ended<A: Allocator> {
    pub(crate) tokens: Vec<Option<Booked>, A>,
    pub(crate) places: Vec<usize, A>,
    pub(crate) is_known: bool,
}

/// What a thread that waited for a commit is to do.
#[derive(Drop)]
pub(crate) enum Turn<A: Allocator> {
    /// This became of its booking.
    Told(Fate),
    /// It commits these.
    Leads(Batch<A>),
}

/// The places, and whether a commit is under way.
#[derive(Drop)]
pub(crate) struct Board<A: Allocator> {
    slots: Vec<Slot, A>,
    is_busy: bool,
}

impl<A: Allocator + Copy> Batch<A> {
    /// Adds a booking. Returns whether there was memory for it.
    fn add(&mut self, place: usize, booking: Booking) -> bool
        ensures places { result ≡ true → self.new.places.items ≡ self.old.places.items ++ place ∷ [] }
        ensures bookings { result ≡ true → self.new.bookings.items ≡ self.old.bookings.items ++ booking ∷ [] }
        ensures tokens { result ≡ true → self.new.tokens.items ≡ self.old.tokens.items ++ None ∷ [] }
        ensures unchanged { result ≡ false → IsSameBatch self.old self.new }
    {
        if self.places.push(place).is_err() {
            return false;
        }
        if self.tokens.push(None).is_err() {
            let _ = self.places.pop();
            return false;
        }
        if self.bookings.push(booking).is_err() {
            let _ = self.places.pop();
            let _ = self.tokens.pop();
            return false;
        }
        true
    }
}

impl<A: Allocator + Copy> Board<A> {
    /// A board with this number of places. Fails if memory is refused.
    pub(crate) fn new(alloc: A, places: usize) -> Result<Board<A>, AllocError>
        ensures empty { IfOk result (λ board. (board.slots.items ≡ replicate places slot.Empty) × (board.is_busy ≡ false)) }
    {
        let mut slots = Vec::new(alloc);
        for _ in 0..places {
            slots.push(Slot::Empty)?;
        }
        Ok(Board {
            slots,
            is_busy: false,
        })
    }

    /// Puts a booking at a place that is free, and gives the place. `None` if all are in use.
    pub(crate) fn put(&mut self, booking: Booking) -> Option<usize>
        ensures put { (place : ℕ) → result ≡ Some place → IsPutAt place booking self.old.slots.items self.new.slots.items }
        ensures full { result ≡ None → (self.new.slots.items ≡ self.old.slots.items) × ((place : ℕ) → slice_get self.old.slots.items place ≢ Some slot.Empty) }
        ensures busy { self.new.is_busy ≡ self.old.is_busy }
    {
        for place in 0..self.slots.len() {
            if let Slot::Empty = self.slots[place] {
                self.slots[place] = Slot::Waits(booking);
                return Some(place);
            }
        }
        None
    }

    /// Whether a thread has to wait: a commit is under way, and the fate of the thread's booking is not known yet.
    pub(crate) fn is_waiting(&self, place: usize) -> bool
        ensures { result ≡ waits_at (slice_get self.now.slots.items place) self.now.is_busy }
    {
        match self.slots.get(place) {
            Some(Slot::Told(_)) => false,
            Some(_) => self.is_busy,
            None => false,
        }
    }

    /// Takes the booking of a place into a batch. Returns whether one waited there, and there was memory for it.
    fn take(&mut self, batch: &mut Batch<A>, place: usize) -> bool
        ensures taken { result ≡ true → TakesAt place self.old.slots.items (lists batch.old) self.new.slots.items (lists batch.new) }
        ensures left { result ≡ false → (self.new.slots.items ≡ self.old.slots.items) × (lists batch.new ≡ lists batch.old) }
        ensures busy { self.new.is_busy ≡ self.old.is_busy }
    {
        let Some(Slot::Waits(booking)) = self.slots.get(place) else {
            return false;
        };
        if !batch.add(place, *booking) {
            return false;
        }
        self.slots[place] = Slot::Away;
        true
    }

    /// Takes what waits, but what there is no memory for.
    fn collect(&mut self, alloc: A) -> Batch<A>
        ensures batch { IsBatch self.old.slots.items (lists result) self.new.slots.items (length self.old.slots.items) }
        ensures busy { self.new.is_busy ≡ self.old.is_busy }
    {
        let mut batch = Batch {
            bookings: Vec::new(alloc),
            tokens: Vec::new(alloc),
            places: Vec::new(alloc),
        };
        for place in 0..self.slots.len() {
            self.take(&mut batch, place);
        }
        batch
    }

    /// Has the thread of a place commit all that waits. If there is no memory for the batch, its own booking is refused.
    fn lead(&mut self, alloc: A, place: usize) -> Turn<A>
        ensures { IsLed self.old.slots.items place self.old.is_busy result self.new.slots.items self.new.is_busy }
    {
        let batch = self.collect(alloc);
        if batch.bookings.is_empty() {
            if let Some(slot) = self.slots.get_mut(place) {
                *slot = Slot::Empty;
            }
            return Turn::Told(Fate::Refused);
        }
        self.is_busy = true;
        Turn::Leads(batch)
    }

    /// Takes what became of the booking of a place, which is free from then on.
    fn hear(&mut self, place: usize) -> Fate
        ensures told { (fate : fates.Fate) → slice_get self.old.slots.items place ≡ Some (slot.Told fate) → result ≡ fate }
        ensures free { self.new.slots.items ≡ slice_set self.old.slots.items place slot.Empty }
        ensures busy { self.new.is_busy ≡ self.old.is_busy }
    {
        let Some(slot) = self.slots.get_mut(place) else {
            return Fate::Unknown;
        };
        match mem::replace(slot, Slot::Empty) {
            Slot::Told(fate) => fate,
            Slot::Empty | Slot::Waits(_) | Slot::Away => Fate::Unknown,
        }
    }

    /// What the thread of a place that waited is to do: return the fate of its booking, or commit what waits. Of a place that has
    /// no booking nothing is known.
    pub(crate) fn turn(&mut self, alloc: A, place: usize) -> Turn<A>
        ensures { IsTurn self.old.slots.items place self.old.is_busy (slice_get self.old.slots.items place) result self.new.slots.items self.new.is_busy }
    {
        match self.slots.get(place) {
            Some(Slot::Told(_)) => Turn::Told(self.hear(place)),
            Some(Slot::Waits(_)) => self.lead(alloc, place),
            Some(Slot::Empty | Slot::Away) | None => Turn::Told(Fate::Unknown),
        }
    }

    /// Puts the fate of a booking at its place.
    fn tell(&mut self, place: usize, fate: Fate)
        ensures told { self.new.slots.items ≡ slice_set self.old.slots.items place (slot.Told fate) }
        ensures busy { self.new.is_busy ≡ self.old.is_busy }
    {
        if let Some(slot) = self.slots.get_mut(place) {
            *slot = Slot::Told(fate);
        }
    }

    /// Puts what a commit made of its bookings at their places, and ends it.
    pub(crate) fn finish(&mut self, ended: Ended<A>)
        ensures told { length ended.tokens.items ≡ length ended.places.items →
            self.new.slots.items ≡ with_told self.old.slots.items ended.places.items ended.tokens.items ended.is_known }
        ensures free { self.new.is_busy ≡ false }
    {
        let Ended {
            mut tokens,
            mut places,
            is_known,
        } = ended;
        while let Some(place) = places.pop() {
            let token = tokens.pop().unwrap_or(None);
            self.tell(place, Fate::new(token, is_known));
        }
        self.is_busy = false;
    }
}
