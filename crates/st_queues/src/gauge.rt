//! The totals that a hub publishes, and the flag that asks its workers to stop.
ghost use Rattle.std.specs.Prelude.{◌≡◌, [], true, false};
ghost use Rattle.std.specs.Arc.{arc_value};
ghost use Rattle.st_queues.specs.Gauged.{publisher, watcher};
ghost use Rattle.st_queues.specs.Watching.{nothing_seen, no_totals, IsUpTo};

use crate::name::HubName;
use crate::table::{GaugeTable, RawSeat, look, open, put, set_stop, split};
use st_streams::EndTotals;
use std::alloc::{AllocError, Allocator};
use std::marker::{Model, PhantomData};
use std::sync::Arc;

/// The gauge of the hub `N`: its totals and its stop flag. Threads may share it. Its calls do not wait.
#[derive(Drop)]
pub struct Gauge<N: HubName<A>, A: Allocator + Copy> {
    table: Arc<GaugeTable<A>, A>,
    of: PhantomData<N>,
    ghost is: { ((arc_value table).shared.table_id ≡ N.gauge) × (N.gauge.words ≡ 5) },
}

/// A watcher's seat at the gauge of the hub `N`. Contracts see it as the totals that it has seen, whether it has seen
/// the stop flag, and whether it set that flag itself.
#[derive(Drop)]
pub struct GaugeSeat<N: HubName<A>, A: Allocator + Copy> {
    seat: RawSeat,
    of: PhantomData<(N, A)>,
}

impl<N: HubName<A>, A: Allocator + Copy> Model for GaugeSeat<N, A> {
    ghost use Rattle.std.specs.Prelude.{◌≡◌, length};
    ghost use Rattle.st_queues.specs.Watching.{Watched, watched};

    ghost Value = { Watched };

    ghost view = { λ s. watched s.seat.me.0.seen s.seat.me.0.asked };

    ghost invariant = { λ s. (s.seat.table_id ≡ N.gauge) × (length s.seat.me.0.seen ≡ 5) };
}

/// The hub's own seat. It alone publishes, and it never asks to stop. Contracts see it as the totals that it published
/// last.
#[derive(Drop)]
pub struct HubSeat<N: HubName<A>, A: Allocator + Copy> {
    seat: RawSeat,
    of: PhantomData<(N, A)>,
}

impl<N: HubName<A>, A: Allocator + Copy> Model for HubSeat<N, A> {
    ghost use Rattle.std.specs.Prelude.{◌≡◌, length, true, false};
    ghost use Rattle.st_queues.specs.Watching.{totals_seen};
    ghost use Rattle.st_streams.specs.declared.totals.EndTotals.{EndTotals};

    ghost Value = { EndTotals };

    ghost view = { λ s. totals_seen s.seat.me.0.seen };

    ghost invariant = { λ s. (s.seat.table_id ≡ N.gauge) × (length s.seat.me.0.seen ≡ 5) × (s.seat.me.0.publishes ≡ true) × (s.seat.me.0.asked ≡ false) };
}

impl<N: HubName<A>, A: Allocator + Copy> Gauge<N, A> {
    /// The totals as published so far. Each is read on its own, and none is below what this seat saw before. Does not
    /// wait.
    pub fn seen(&self, seat: &mut GaugeSeat<N, A>) -> EndTotals
        ensures totals { result ≡ seat.new.totals }
        ensures rises { IsUpTo seat.old.totals seat.new.totals }
        ensures stop { (seat.new.stop ≡ seat.old.stop) × (seat.new.asked ≡ seat.old.asked) }
    {
        let GaugeSeat { seat, of: _ } = seat;
        let accepted = look(&self.table, seat, 1);
        let delivered = look(&self.table, seat, 2);
        let credited = look(&self.table, seat, 3);
        let paid = look(&self.table, seat, 4);
        EndTotals {
            accepted,
            delivered,
            credited,
            paid,
        }
    }

    /// Asks all seats to stop. The request stays for good. Does not wait.
    pub fn ask_stop(&self, seat: &mut GaugeSeat<N, A>)
        ensures { seat.new ≡ record seat.old { stop = true; asked = true } }
    {
        let GaugeSeat { seat, of: _ } = seat;
        set_stop(&self.table, seat);
    }

    /// Whether any seat asked to stop. Once it is true for a seat, it stays true for that seat. Does not wait.
    pub fn stopped(&self, seat: &mut GaugeSeat<N, A>) -> bool
        ensures told { result ≡ seat.new.stop }
        ensures stands { seat.old.stop ≡ true → result ≡ true }
        ensures same { (seat.new.totals ≡ seat.old.totals) × (seat.new.asked ≡ seat.old.asked) }
    {
        let GaugeSeat { seat, of: _ } = seat;
        look(&self.table, seat, 0) > 0
    }

    /// A further seat. It has seen as much as this one, and has not asked to stop itself.
    pub fn split(&self, seat: &mut GaugeSeat<N, A>) -> GaugeSeat<N, A>
        ensures { (seat.new ≡ seat.old) × (result ≡ record seat.old { asked = false }) }
    {
        let GaugeSeat { seat, of: _ } = seat;
        GaugeSeat {
            seat: split(&self.table, seat),
            of: PhantomData,
        }
    }

    /// Publishes the totals. Requires that none is below the one published last. Does not wait.
    pub fn publish(&self, seat: &mut HubSeat<N, A>, totals: EndTotals)
        requires { IsUpTo seat.old totals }
        ensures { seat.new ≡ totals }
    {
        let HubSeat { seat, of: _ } = seat;
        put(&self.table, seat, 1, totals.accepted);
        put(&self.table, seat, 2, totals.delivered);
        put(&self.table, seat, 3, totals.credited);
        put(&self.table, seat, 4, totals.paid);
    }
}

// A gauge that has no name yet: its table twice, the hub's seat, and a watcher's.
#[derive(Drop)]
pub struct Opened<A: Allocator + Copy> {
    pub(crate) table: Arc<GaugeTable<A>, A>,
    again: Arc<GaugeTable<A>, A>,
    seat: RawSeat,
    beside: RawSeat,
    ghost one: { ((arc_value again).shared.table_id ≡ (arc_value table).shared.table_id) × ((arc_value table).shared.table_id.words ≡ 5) },
    ghost seats: { (seat.table_id ≡ (arc_value table).shared.table_id) × (beside.table_id ≡ (arc_value table).shared.table_id) },
    ghost views: { (seat.me ≡ (publisher, [])) × (beside.me.0 ≡ watcher publisher) },
}

// What a gauge is under its name: the hub's gauge and seat, and another gauge with a watcher's seat.
#[derive(Drop)]
pub struct NamedGauge<N: HubName<A>, A: Allocator + Copy> {
    pub(crate) hub_gauge: Gauge<N, A>,
    pub(crate) hub_seat: HubSeat<N, A>,
    pub(crate) gauge: Gauge<N, A>,
    pub(crate) seat: GaugeSeat<N, A>,
}

impl<A: Allocator + Copy> Opened<A> {
    pub(crate) fn new(alloc: A) -> Result<Opened<A>, AllocError> {
        let (table, mut seat) = open(alloc)?;
        let beside = split(&table, &mut seat);
        let table = Arc::new(alloc, table)?;
        let again = Arc::try_clone(&table)?;
        Ok(Opened {
            table,
            again,
            seat,
            beside,
        })
    }

    pub(crate) fn named<N: HubName<A>>(self) -> NamedGauge<N, A>
        requires { (arc_value self.table).shared.table_id ≡ N.gauge }
        ensures { (result.hub_seat ≡ no_totals) × (result.seat ≡ nothing_seen) }
    {
        let Opened {
            table,
            again,
            seat,
            beside,
        } = self;
        NamedGauge {
            hub_gauge: Gauge {
                table,
                of: PhantomData,
            },
            hub_seat: HubSeat {
                seat,
                of: PhantomData,
            },
            gauge: Gauge {
                table: again,
                of: PhantomData,
            },
            seat: GaugeSeat {
                seat: beside,
                of: PhantomData,
            },
        }
    }
}
