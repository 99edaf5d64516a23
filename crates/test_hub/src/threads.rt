//! Two hubs that threads share.
ghost use Rattle.std.specs.Prelude.{◌≡◌, ℕ};
ghost use Rattle.st_queues.specs.Lanes.{ring_at};
ghost use Rattle.st_hub.specs.Hub.{IsNew};

use crate::ends::{client, server};
use crate::gates::two_workers;
use crate::hubs::{Locked, new_hubs, new_rings};
use crate::wakes::{
    all_are_woken, gate_opens, more_is_due, others_end, room_is_made, takes_packets,
};
use st_end::EndState;
use st_queues::{GaugeSeat, HubName, Rings};
use std::alloc::Global;
use std::marker::Brand;
use std::process::Abort;
use std::sync::Wait;
use std::sync::ledger::Blank;
use std::thread::Threads;
use std::time::{Clock, Duration};

/// What is tried by threads that share a client's hub and a server's.
#[derive(Clone, Copy, Debug, PartialEq, Eq)]
pub(crate) enum Scene {
    TwoWorkers,
    TakesPackets,
    OthersEnd,
    AllAreWoken,
    RoomIsMade,
    MoreIsDue,
    GateOpens,
}

fn play<
    N: HubName<Global> + Send + Sync,
    M: HubName<Global> + Send + Sync,
    R: Threads + Wait + Abort + Clock + Sync,
>(rt: &R, alloc: Global, hubs: &Locked<N, M>, seat: &mut GaugeSeat<N, Global>, scene: Scene) {
    match scene {
        Scene::TwoWorkers => two_workers(rt, alloc, hubs, seat),
        Scene::TakesPackets => takes_packets(rt, alloc, hubs, seat),
        Scene::OthersEnd => others_end(rt, alloc, hubs, seat),
        Scene::AllAreWoken => all_are_woken(rt, alloc, hubs, seat),
        Scene::RoomIsMade => room_is_made(rt, alloc, hubs, seat),
        Scene::MoreIsDue => more_is_due(rt, alloc, hubs, seat),
        Scene::GateOpens => gate_opens(rt, alloc, hubs, seat),
    }
}

fn run_named<
    N: HubName<Global> + Send + Sync,
    M: HubName<Global> + Send + Sync,
    R: Threads + Wait + Abort + Clock + Sync,
>(
    rt: &R,
    alloc: Global,
    near: EndState<Global>,
    near_rings: Rings<Global>,
    near_blank: Blank,
    far: EndState<Global>,
    far_rings: Rings<Global>,
    far_blank: Blank,
    scene: Scene,
)
    requires near { IsNew near }
    requires near_gauge { near_rings.gauge ≡ N.gauge }
    requires near_writes { (k : ℕ) → N.write_ring k ≡ ring_at near_rings.writes k }
    requires near_reads { (k : ℕ) → N.read_ring k ≡ ring_at near_rings.reads k }
    requires near_name { (near_blank.name ≡ N.name) × (near_blank.parts ≡ N.parts) × (near_blank.parts ≡ 64) }
    requires far { IsNew far }
    requires far_gauge { far_rings.gauge ≡ M.gauge }
    requires far_writes { (k : ℕ) → M.write_ring k ≡ ring_at far_rings.writes k }
    requires far_reads { (k : ℕ) → M.read_ring k ≡ ring_at far_rings.reads k }
    requires far_name { (far_blank.name ≡ M.name) × (far_blank.parts ≡ M.parts) × (far_blank.parts ≡ 64) }
{
    let (mut hubs, mut seat) = new_hubs::<N, M>(
        near, near_rings, near_blank, far, far_rings, far_blank,
    );
    hubs.near.pause = Duration::from_secs(40);
    play(rt, alloc, &hubs, &mut seat, scene);
    drop(hubs);
}

/// Tries this with new hubs, the first of which sends at most 10 units in a Prepare, and pauses for 40 seconds after a failure for
/// now.
pub(crate) fn run_threaded<R: Threads + Wait + Abort + Clock + Sync>(
    rt: &R,
    alloc: Global,
    scene: Scene,
) {
    run_named::<Brand, Brand, R>(
        rt,
        alloc,
        client(rt, alloc, 10),
        new_rings(rt, alloc),
        Blank::new(64),
        server(rt, alloc),
        new_rings(rt, alloc),
        Blank::new(64),
        scene,
    );
}
