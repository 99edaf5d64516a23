//! The command `local`: sends an input over a chain of connectors in memory, and writes what was read at its end.
//!
//! The input is cut into parts (`specs/Parts.antt`), each on its own stream of one STREAM connection (RFC 0029) through
//! a world of st_world. What is played is a run by that world's definitions (`specs/Playing.antt`), so what holds of
//! every run holds of it. The bytes that are written are those that its reads gave. `specs/Endings.antt` defines how a
//! run may end, and what was written by then.
#![tactic(auto)]

mod chain;
mod fault;
mod input;
mod local;
mod output;
mod parts;
mod play;
mod sends;
mod streams;
mod texts;

pub use fault::LocalFault;
pub use input::MAX_BYTES;
pub use local::{play_local, run_local};
pub use parts::part_size;
pub use play::MAX_EVENTS;
pub use sends::LocalSends;
