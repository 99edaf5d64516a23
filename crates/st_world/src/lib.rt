//! A world: two ends of a STREAM connection (RFC 0029) and the hops between them (RFC 0027), under every order of
//! events.
//!
//! `specs/Steps.antt` defines the effect of an event, by the definitions of an end and of a hop; `specs/Runs.antt`
//! joins steps to runs. `specs/Holds.antt` defines what each reachable world keeps, and `every_run_holds` proves it.
//! `specs/Crashes.antt` defines what a crash costs.
//!
//! `Event` is what may happen next. `World` plays events in memory with the real ends and hops, and each has the effect
//! that its step has. `Trace` is the result of a run. `specs/Chains.antt` defines the chain, `specs/Left.antt` how a
//! trace shows the world, and `specs/Places.antt` the effect of an event on the list of links. `proofs/Meets.antt` and
//! `proofs/Hops.antt` prove that this is the event's step.
#![tactic(auto)]

mod dispatch;
mod event;
mod fault;
mod laws;
mod links;
mod opening;
mod sent;
mod telling;
mod trace;
mod turn;
mod world;

pub use event::Event;
pub use fault::Fault;
pub use laws::{
    crashes_cost_open_tickets, every_run_holds, hops_stay_lawful, prepares_are_fulfilled_once,
    prepares_go_across, streams_open_and_close, want_of_memory_is_noted,
    what_is_pending_bounds_the_cost,
};
pub use opening::MAX_HOPS;
pub use st_end::EndError;
pub use st_hop::Account;
pub use st_ilp::Moment;
pub use st_oer::Rate;
pub use st_receiver::Got;
pub use st_sender::EndConfig;
pub use st_world_parts::{
    AnsweredAtEnd, AnsweredAtHop, Node, Party, SentAnswer, SentPrepare, Side, StreamLog, Told, Way,
};
pub use trace::Trace;
pub use world::World;
