//! Books that keep what was booked when the process is killed.

ghost use Rattle.std.specs.Prelude.{ℕ, List, IfErr, OnOk};
ghost use Rattle.st_links.specs.declared.booking.Booking as bookings;

use crate::booking::Booking;

/// Books that keep what was booked when the process is killed.
pub trait Keeper {
    /// What a commit of these bookings made of the books, on the disk too.
    ghost commits: { Self → List bookings.Booking → Self → Type 0 };

    /// What a refusal of these bookings, with this number, leaves of the books.
    ghost keeps: { Self → List bookings.Booking → Self → ℕ → Type 0 };

    /// Commits bookings, all of them or none. Refuses with a number.
    fn commit(&mut self, bookings: &[Booking]) -> Result<(), u8>
        ensures committed { OnOk result (commits self.old bookings.now self.new) }
        ensures kept { IfErr result (λ number. keeps self.old bookings.now self.new number) };
}
