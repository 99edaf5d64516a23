//! A hub: an end of a connection under one lock, with the rings of its writers and readers.
//!
//! `HubState` is the lock's value. Application threads write to and read from the rings and never wait; `pump` moves whole chunks
//! between the rings and the end. A worker takes a `Turn` under the lock, seals its packet and exchanges its Prepare over a `Link`
//! with the lock open, and finishes it under the lock again. A `Bench` is the lock with what the workers wait on. Each thread that receives Prepares has a
//! `CreditShare`. `gather` shows that the sum of all shares is what the end was credited.
#![tactic(auto)]

mod adding;
mod bench;
mod causes;
mod error;
mod gate;
mod hub;
mod hub_link;
mod lanes;
mod laws;
mod pumping;
mod streams;
mod turns;
mod unsealed;
mod workers;

pub use bench::Bench;
pub use causes::{Observer, Unwatched};
pub use error::HubError;
pub use hub::HubState;
pub use hub_link::HubLink;
pub use laws::merges_are_told;
pub use st_devices::Counted;
pub use st_end::{EndError, EndState, Failed, Received};
pub use st_hop_desk::{
    AccountShares, Arrived, Books, DeskError, HopDesk, HopState, NoBooks, Owed, Served, Ticket,
    serve,
};
pub use st_ilp::Moment;
pub use st_links::{Booked, Clock, FailLink, Link, LinkFault, Links, Outcome};
pub use st_queues::{
    Gauge, GaugeSeat, Got, HubName, QueueError, Rings, StreamReader, StreamWriter,
};
pub use st_sender::Blocked;
pub use turns::{CreditShare, SHARES, Step, Turn};
pub use unsealed::UnsealedTurn;
pub use workers::{Ivs, WorkEnd, Worker, work};
