//! The books of a connector with its table: which account of the books a line of the table is, what a connector continues with that
//! is started with books, and how books are printed.
//!
//! `place` compares the books with the table, by names, before anything is written, adds the names that the books lack, and
//! counts the start. `Placed` is the `Keeper` of a till: it books the accounts of the table at their places in the books.
//! `OpensBooks` opens the books of a file, so that a program over it needs no runtime of a process. `Watched` books refuse once their
//! files are not those that were opened.
#![tactic(auto)]

mod error;
mod laws;
mod opening;
mod owed;
mod placed;
mod placing;
mod settling;
mod text;
mod watched;

pub use error::LedgerError;
pub use laws::{
    added_names_owe_nothing, bookings_are_by_name, entries_are_by_name, every_history_balances,
};
pub use opening::OpensBooks;
pub use placed::Placed;
pub use placing::{Life, place};
pub use settling::{Once, settle, settle_once};
pub use text::{account_text, ledger_text, repeated_text};
pub use watched::{FileNames, Look, Watched, Watcher};
