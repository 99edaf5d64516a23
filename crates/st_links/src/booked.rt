//! The token of a booking that is stored.

ghost use Rattle.std.specs.Prelude.{◌≡◌, ◌∷◌, [], length, map, IfOk, IfErr, OnOk};

use crate::booking::Booking;
use crate::keeper::Keeper;
use std::marker::Model;

/// The token of one booking that books have committed. It is not to be copied or cloned, and nothing else makes one.
#[must_use]
#[derive(Drop)]
pub struct Booked {
    booking: Booking,
}

impl Model for Booked {
    ghost use Rattle.st_links.specs.declared.booking.Booking as bookings;

    ghost Value = { bookings.Booking };

    ghost view = { λ b. b.booking };
}

/// Types that may be copied. These two impls stay disjoint only as long as a token is not `Clone`.
trait IsSpentOnce {}

impl<T: Clone> IsSpentOnce for T {}

impl IsSpentOnce for Booked {}

impl Booked {
    /// The booking that was committed.
    pub fn booking(&self) -> Booking
        ensures { result ≡ self.now }
    {
        self.booking
    }

    /// Uses the token up, and gives the booking.
    pub fn spend(self) -> Booking
        ensures { result ≡ self }
    {
        let Booked { booking } = self;
        booking
    }
}

/// Puts the token of each booking in its place.
fn hand_out(bookings: &[Booking], tokens: &mut [Option<Booked>])
    requires { length tokens.old ≡ length bookings.now }
    ensures { tokens.new ≡ map Some bookings.now }
{
    for at in 0..bookings.len() {
        tokens[at] = Some(Booked {
            booking: bookings[at],
        });
    }
}

/// Commits bookings by one commit of the books, and puts the token of each in its place. After the commit nothing is
/// refused. At an error there is no new token.
pub fn commit_all<B: Keeper>(
    books: &mut B,
    bookings: &[Booking],
    tokens: &mut [Option<Booked>],
) -> Result<(), u8>
    requires { length tokens.old ≡ length bookings.now }
    ensures committed { OnOk result (B.commits books.old bookings.now books.new) }
    ensures tokens { OnOk result (tokens.new ≡ map Some bookings.now) }
    ensures kept { IfErr result (λ number. B.keeps books.old bookings.now books.new number) }
    ensures unchanged { IfErr result (λ _. tokens.new ≡ tokens.old) }
{
    books.commit(bookings)?;
    hand_out(bookings, tokens);
    Ok(())
}

/// Commits one booking, and gives its token.
pub fn commit_one<B: Keeper>(books: &mut B, booking: Booking) -> Result<Booked, u8>
    ensures committed { OnOk result (B.commits books.old (booking ∷ []) books.new) }
    ensures token { IfOk result (λ token. token ≡ booking) }
    ensures kept { IfErr result (λ number. B.keeps books.old (booking ∷ []) books.new number) }
{
    books.commit(&[booking])?;
    Ok(Booked { booking })
}
