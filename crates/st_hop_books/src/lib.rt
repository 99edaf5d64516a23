//! What neighbours owe and are owed, in an SQLite database: the books.
//!
//! `Books::book` commits bookings, and keeps their proofs: at `Ok` each crash leaves books that have them, and during the call a
//! crash leaves the books from before or with all of them. `pay` takes a payment outside Interledger off a
//! sum, or adds an adjustment, and keeps a line of it, by whose reference `entered` finds it.
//! `begin_life` counts the starts. `open` finds the books that a crash left.
#![tactic(auto)]

mod balance;
mod books;
mod continuing;
mod damage;
mod error;
mod existing;
mod filing;
mod frames;
mod laws;
mod laying;
mod lines;
mod looking;
mod making;
mod names;
mod opening;
mod paying;
mod stamp;
mod table;

pub use balance::{Amounts, Entry, Kind, Payment};
pub use books::Books;
pub use error::BooksError;
pub use existing::{open_existing, open_existing_files};
pub use laws::the_next_open_finds_them;
pub use opening::{open, open_files};
pub use st_links::BalanceSide;
