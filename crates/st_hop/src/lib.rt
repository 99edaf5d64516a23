//! A hop: the connector between the sender and the receiver of an Interledger packet (RFC 0027).
//!
//! `arrive` handles the bytes of a Prepare. It gives a Reject that answers it, or the bytes to forward and a `Ticket`.
//! `settle` ends the ticket with the answer that arrived, and gives the bytes of the answer to the Prepare. Until
//! then the hop reserves the amount against the account that the Prepare arrived from. The forwarded amount is that
//! amount at the rate of the route. Claims are what an account owes the hop, dues what the hop owes it. Time, accounts
//! and bytes are arguments: the crate uses no clock, socket or thread.
#![tactic(auto)]

mod account;
mod books;
mod error;
mod hop;
mod laws;
mod open_ticket;
mod refusal;
mod room;
mod route;
mod settling;
mod table;
mod ticket;
mod verdict;
mod waiting;

pub use account::Account;
pub use error::HopError;
pub use hop::HopState;
pub use laws::{
    arrivals_go_across, books_go_on, every_run_balances, every_run_is_lawful, longest_route_law,
    prepares_go_on_as_routed, settlements_book, tickets_settle_once,
};
pub use open_ticket::OpenTicket;
pub use refusal::Refusal;
pub use route::{NextHop, Route};
pub use settling::Closing;
pub use st_ilp::Moment;
pub use st_links::{Link, Outcome};
pub use st_oer::Rate;
pub use ticket::{Open, Ticket};
pub use verdict::Verdict;
