//! An end of a STREAM connection (RFC 0029), from bytes to bytes. `EndState` opens streams, accepts bytes and money to
//! send, and closes. `send` gives the bytes of the next Prepare and its `Flight`; `answer` and `fault` handle its
//! outcome. `receive` gives the answer to the bytes of a Prepare, and `read` gives what arrived. `Opened::of` and
//! `receive_opened` are the two halves of `receive`, of which other threads can do the first. `send_unsealed`,
//! `Unsealed::seal` and `keep` are the parts of `send`, of which other threads can do the second. There is no I/O and
//! no clock here. A call that fails changes nothing, and each error has a number, `number`.
//!
//! `specs/State.antt` defines an end, `Calls` and `Reading` the calls, `Receiving` the answer to bytes that arrived,
//! `Opened` what the keys alone make of these, `Answers` the effect of an answer's bytes, `Failed` why a Prepare
//! failed, `Sending` the Prepare that is sent, `Unsealed` one whose packet is not sealed yet. `Lawful` says what holds
//! of every end, and `Laws` what holds of every reply.
#![tactic(auto)]

mod answer;
mod back;
pub mod by_number;
mod calls;
mod conditions;
mod effect;
mod end;
mod failed;
mod flight;
mod kept;
mod laws;
mod open_flight;
mod opened;
mod receive;
mod received;
mod reply;
mod role;
mod send;
mod totals;
mod unsealed;

pub use end::EndState;
pub use failed::{Failed, FailedKind};
pub use flight::{Flight, Open};
pub use laws::replies_are_sealed;
pub use open_flight::OpenFlight;
pub use opened::Opened;
pub use received::Received;
pub use role::Role;
pub use st_ilp::{ErrorCode, Moment};
pub use st_keys::Keys;
pub use st_oer::{Rate, is_address};
pub use st_sender::{Blocked, EndConfig};
pub use st_streams::{EndError, EndTotals as Totals, StreamId, StreamRead as Got};
pub use unsealed::Unsealed;
