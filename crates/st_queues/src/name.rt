//! The type-level name of a hub.
ghost use Rattle.std.specs.Prelude.{ℕ};
ghost use Rattle.atomic_table.specs.Seated.{TableId};
ghost use Rattle.st_queues.specs.Names.{RingId, no_ring, no_table};

use std::marker::Brand;
use std::sync::ledger::Ledger;

/// Names a hub: its ledger, its gauge, and its rings by their numbers.
///
/// A name is created by calling a function with `Brand` once the rings and the ledger's `Blank` are made.
pub trait HubName<A>: Ledger {
    /// The table of the gauge.
    ghost gauge: { TableId };

    /// The ring from a writer, by its number: writer `j` of stream `s` has the ring number `8 s + j`.
    ghost write_ring: { ℕ → RingId A };

    /// The ring to a reader, by the index of its stream.
    ghost read_ring: { ℕ → RingId A };
}

impl<A> HubName<A> for Brand {
    ghost gauge = { no_table };

    ghost write_ring = { λ _. no_ring };

    ghost read_ring = { λ _. no_ring };
}
