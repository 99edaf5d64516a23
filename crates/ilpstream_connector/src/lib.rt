//! The part of `connector` that runs (RFC 0035).
//!
//! `connector_on` answers requests from a hop that many threads serve, each with links of its own to the neighbours,
//! and books at a till if it is given one. It returns a `TransferError` if it fails, of which `number` gives the
//! program's fault, and reports the totals of its accounts.
#![tactic(auto)]

mod accept;
mod accounts;
mod common;
mod connect;
mod counts;
mod crew;
mod manager;
mod minutes;
mod roster;
mod server;
mod storing;
mod ways;
mod worker;

pub use accounts::AccountTotals;
pub use connect::{ConnectorEnded, connector_on};
pub use counts::{AccountCounts, CodeCount, Counts, MOST_CODES};
pub use minutes::{Minutes, NoMinutes, Order};
pub use roster::MOST_THREADS;
