//! Rings between application threads and a hub, and a gauge that publishes the hub's totals.
//!
//! Each of the 64 streams of a hub has eight rings from writers and one ring to a reader, of 64 items each. The
//! application has a `StreamWriter` or a `StreamReader`, the hub the other side of the ring. A `Gauge` has the totals
//! of bytes and money of a hub, and a flag that asks workers to stop. A hub's name is a type parameter of its ends,
//! seats and gauge, so mixing those of two hubs does not compile. No call waits. `Rings::new` alone allocates.
#![tactic(auto)]

mod ends;
mod error;
mod gauge;
mod items;
mod lanes;
mod name;
mod reader;
mod rings;
mod table;
mod writer;

pub use ends::{ReadEnd, WriteEnd};
pub use error::QueueError;
pub use gauge::{Gauge, GaugeSeat, HubSeat};
pub use items::{Delivery, Item};
pub use lanes::{ReadRing, WriteRing};
pub use name::HubName;
pub use reader::StreamReader;
pub use rings::{Named, ROOM, Rings, STREAMS, WRITERS};
pub use st_streams::{EndTotals as Totals, StreamRead as Got};
pub use writer::{MAX_CHUNK, StreamWriter};
