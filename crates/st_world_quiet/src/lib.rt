//! How many Prepares a run takes in which nothing is lost, and such a run, played whole.
//!
//! Of two ends (RFC 0029): `specs/Quiet.antt` defines the sender between two Prepares, `specs/Left.antt` what is left
//! to send and the bound, `specs/Rounds.antt` the run as the sender sees it. `specs/Mirrored.antt` defines the
//! receiver's state relative to it, and `specs/Exchanges.antt` joins both: `exchanges_are_bounded` is the law.
//! `specs/Calls.antt` defines the calls that start such a run and continue its writes. `specs/Trips.antt` defines the
//! bytes between two ends without hops: `a_run_is_bounded` is its law.
//!
//! Over a chain of hops: `specs/Crossing.antt` defines a Prepare that is sent over hops to an end, and the answer that
//! is sent back over them. `specs/Calm.antt` defines a hop between two rounds of such a run, and `specs/Chains.antt`
//! the run. `specs/Worlds.antt` and `specs/HopRounds.antt` define the same run by the events of a world, and
//! `specs/Plays.antt` by lists of inputs and amounts. `a_run_over_hops_is_bounded`, `a_quiet_run_of_a_world_is_bounded`
//! and `a_played_run_delivers` are the laws.
//!
//! With losses: `specs/Losses.antt`, `specs/LostTrips.antt`, `specs/LostCrossings.antt` and `specs/LostWorlds.antt`
//! define the same runs if some Sends are lost, or the answers to them.
//!
//! Played: `quiet` has bytes and an amount for each stream as arguments, and what it plays is a `QuietRun`: all is
//! delivered, and the client sends no more Prepares than the bound. By the trait `Quiet` it is a method of the world. `specs/Playing.antt` defines the parts of a run and
//! why it may end early. `lossy` plays the same with losses: a list says of each Send what becomes of it
//! (`specs/Fates.antt`).
#![tactic(auto)]

mod end_laws;
mod fate;
mod fated;
mod fault;
mod following;
mod hop_laws;
mod laws;
mod lossy_run;
mod method;
mod most;
mod opening;
mod rounds;
mod run;
mod steps;
mod stop;
mod writes;

pub use end_laws::{
    a_fulfill_tells_enough, a_load_breaks_no_rule, a_load_is_fulfilled, a_load_is_read,
    a_load_is_short, a_lossy_run_by_calls_is_bounded, a_lossy_run_is_bounded,
    a_lossy_run_of_ends_is_bounded, a_lost_send_costs_itself, a_read_takes_all,
    a_reply_tells_each_window, a_reply_tells_enough, a_round_keeps_abreast, a_run_is_bounded,
    a_send_may_be_lost, a_send_stops_at_the_end, a_stream_is_written_on, a_trip_is_an_exchange,
    a_write_is_taken_where_it_fits, an_opening_is_abreast, calls_open, calls_write_on,
    exchanges_are_bounded, reads_take_all, sends_are_bounded, trips_are_bounded,
};
pub use fate::Fate;
pub use fault::Fault;
pub use hop_laws::{
    a_calm_hop_passes_on, a_crossing_is_a_turn, a_lossy_run_by_calls_over_hops_is_bounded,
    a_lossy_run_of_a_world_is_bounded, a_lossy_run_over_hops_is_bounded, a_new_hop_is_calm,
    a_played_run_delivers, a_prepare_crosses_a_world, a_prepare_may_cross,
    a_quiet_run_of_a_world_is_bounded, a_run_over_hops_is_bounded,
};
pub use laws::{a_chain_with_room_may_lose, a_chain_with_room_may_play};
pub use lossy_run::{LossyDelivery, lossy};
pub use method::Quiet;
pub use run::Delivery;
