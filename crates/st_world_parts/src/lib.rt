//! The parts of a world, each with its records, and what an event does at one of them (RFC 0029, RFC 0027). A `Party`
//! is an end with its flights, a `Node` is a hop with its tickets, and a `Link` has all Prepares and answers that were
//! ever sent over it. `StreamLogs` have what was written and read of each stream.
//!
//! `specs/State.antt` defines a world: both ends, the hops, and everything that was ever sent over a link. An event
//! (`specs/Events.antt`) is a call at an end, the arrival of a Prepare, an answer or a fault, or a crash of a hop, at
//! any time and any number of times; `specs/Ends.antt` and `specs/Hops.antt` define its effect at an end and at a hop.
//! Each function here is that effect (`specs/Parts.antt`): the call of the end or of the hop, and its record. All
//! memory by which a record may grow is reserved before the call, so that nothing has happened if memory is refused.
#![tactic(auto)]

mod calls;
mod entry;
mod lane;
mod ledger;
mod node;
mod party;
mod side;
mod told;

pub use calls::{abort_at, close_at, offer_at, open_at, raise_at, read_at, write_at};
pub use entry::{AnsweredAtEnd, AnsweredAtHop};
pub use lane::{Direction, Link, SentAnswer, SentPrepare, copy_given, copy_put};
pub use ledger::{StreamLog, StreamLogs};
pub use node::{Node, arrive_at, settle_at};
pub use party::{Party, arrive_at_end, send_from, settle_at_end};
pub use side::{Side, Way};
pub use told::Told;
