//! What a hop or an end is handed from outside: links to its neighbours, the time, and books that keep what a Fulfill
//! books.
//!
//! An exchange over a `Link` has an `Outcome`. The order of a connector is: the booking is stored, then the ticket is
//! settled, then the Fulfill is passed on. Only `commit_all` and `commit_one` make a token, `Booked`, and only after
//! the books' commit. The caller that settles a ticket passes its token by value. A `BalanceSide` says which amount of an account
//! a manual booking changes.
#![tactic(auto)]

mod booked;
mod booking;
mod fail_link;
mod keeper;
mod link;
mod outcome;
mod side;

pub use booked::{Booked, commit_all, commit_one};
pub use booking::{Booking, Proof};
pub use fail_link::FailLink;
pub use keeper::Keeper;
pub use link::{Clock, Link, LinkFault, Links};
pub use outcome::Outcome;
pub use side::BalanceSide;
