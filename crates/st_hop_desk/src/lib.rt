//! A hop that several threads serve: its state under one lock, with two ledgers of what is booked there.
//!
//! `HopDesk` is the lock's value. Each thread books its settlements in `AccountShares` of its own. `gather` shows that
//! the sum of all shares is what all accounts owe the hop and what the hop owes them. `serve` admits a Prepare under the
//! lock, exchanges it over a `Link` with the lock open, stores in `Books` what it books, and settles it under the lock again.
#![tactic(auto)]

mod board;
mod desk;
mod error;
mod serving;
mod stored;
mod till;

pub use desk::{AccountShares, Arrived, HopDesk, Owed, SHARES};
pub use error::DeskError;
pub use serving::{Served, serve};
pub use st_hop::{HopError, HopState, Ticket};
pub use st_ilp::Moment;
pub use st_links::{Booked, Clock, Links, Outcome};
pub use stored::{Books, Fate, NoBooks, booking_of};
pub use till::{Till, deposit, refused_at};
