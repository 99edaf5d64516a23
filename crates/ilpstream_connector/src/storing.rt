//! The store in which a thread of a connector books a Fulfill.

use crate::crew::Crew;
use ilpstream_serving::{AwaitListener, shut};
use st_hop_desk::{Books, Fate, NoBooks, Till, deposit, refused_at};
use st_links::{Booking, Keeper};
use std::alloc::Global;
use std::sync::Wait;

/// The store in which one thread of a connector books a Fulfill: a till of durable books, or memory alone.
#[derive(Drop)]
pub(crate) struct Storing<'a, K: Keeper, L, R: Wait> {
    pub(crate) rt: &'a R,
    pub(crate) till: Option<&'a Till<K, Global>>,
    /// The threads of the connector, which end once the books refused a booking.
    pub(crate) crew: &'a Crew,
    /// The listener at which they wait for connections.
    pub(crate) listener: &'a L,
}

impl<K: Keeper, L: AwaitListener, R: Wait> Storing<'_, K, L, R> {
    /// Ends the threads of the connector where the books of a till refused a booking.
    fn end_if_refused(&self, till: &Till<K, Global>) {
        if let Some(number) = refused_at(self.rt, till) {
            self.crew.refuse(self.rt, number);
            shut(self.listener);
        }
    }
}

impl<K: Keeper, L: AwaitListener, R: Wait> Books for Storing<'_, K, L, R> {
    fn store(&mut self, booking: Booking) -> Fate {
        let Some(till) = self.till else {
            return NoBooks.store(booking);
        };
        let fate = deposit(self.rt, till, booking);
        if !matches!(&fate, Fate::Stored(_)) {
            self.end_if_refused(till);
        }
        fate
    }
}
