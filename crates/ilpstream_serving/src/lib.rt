//! What `send`, `receive` and `connector` have in common (RFC 0035): links to neighbours, listeners, clocks, waits, and
//! what the log has of them.
//!
//! `HttpLink` is a link to a neighbour by ILP over HTTP, the synchronous mode: each exchange is one TCP connection, one
//! request and one response. `specs/Links.antt` says which `LinkFault` each `HttpError` becomes. `accept_next` and
//! `serve_on` accept a connection and answer its request. A `TransferError` is why one of the three commands failed;
//! its `number` is the program's fault.
#![tactic(auto)]

mod buffered;
mod cause;
mod clock;
mod ended;
mod error;
mod http_link;
mod journal;
mod neighbour;
mod serving;
mod telling;
mod terms;
mod timed;
mod waiting;
mod watched;
mod watching;

pub use buffered::Buffered;
pub use cause::{LinkCause, Unreached};
pub use clock::{LastMoment, RuntimeClock, SharedClock};
pub use ended::Ended;
pub use error::TransferError;
pub use http_link::{ADDRESS_SECONDS, ANSWER_SECONDS, HttpLink};
pub use journal::{LogFile, log_anew, log_in, without_waits};
pub use neighbour::{Neighbourhood, link_to};
pub use serving::{
    PAUSE, TRIES, Tried, WRITE_SECONDS, accept_next, accept_soon, accept_without_waits, serve_on,
    shut,
};
pub use st_http::Neighbour;
pub use telling::{
    Log, Refusal, Sent, cause_in, cause_of, refusal_of, tell, tell_connection, tell_end,
    tell_outcome, tell_refused, tell_served,
};
pub use terms::{ConnectTerms, ReceiveTerms, SendTerms};
pub use timed::{Timed, deadline_in, left_until};
pub use waiting::{AwaitListener, Patience, millis_of};
pub use watching::{Idle, Latest, NoWatch, Watch};
