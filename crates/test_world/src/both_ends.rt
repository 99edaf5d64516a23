//! Runs in which both ends send, and some Sends are lost.

use crate::losses::{Seen, bytes, front};
use crate::lossy::{Input, Numbers, PACKET_LIMIT, Passage, begin, read_all, world};
use st_world::World;
use st_world_parts::{Side, Way};
use st_world_quiet::Fate;
use std::alloc::Global;
use std::process::Abort;

/// One of two ends that both send.
#[derive(Clone, Copy)]
struct Sender {
    side: Side,
    stream: u8,
    passage: Passage,
    seen: Seen,
    /// How many Sends it takes without losses.
    work: u64,
    is_flying: bool,
    is_done: bool,
}

impl Sender {
    fn begin(
        rt: &impl Abort,
        world: &mut World<Global>,
        side: Side,
        numbers: &mut Numbers,
        bytes: &[u8],
    ) -> Sender {
        let (money, size) = (numbers.below(400), numbers.below(50_000) as usize);
        let (stream, way) = match side {
            Side::Client => (1, Way::ToServer),
            Side::Server => (2, Way::ToClient),
        };
        let input = Input {
            stream,
            bytes: front(bytes, size),
            money,
            receive_max: money.saturating_add(1_000),
        };
        begin(rt, world, side, &input);
        Sender {
            side,
            stream,
            passage: Passage::new(rt, way, 0),
            seen: Seen::NOTHING,
            work: (size as u64)
                .div_ceil(16_000)
                .max(money.div_ceil(PACKET_LIMIT))
                .saturating_add(1),
            is_flying: false,
            is_done: false,
        }
    }

    /// Sends a Prepare, or meets the fate of the one that flies.
    fn goes_on(&mut self, rt: &impl Abort, world: &mut World<Global>, numbers: &mut Numbers) {
        if !self.is_flying {
            self.is_flying = self.passage.sends(rt, world, self.side);
            self.is_done = !self.is_flying;
            return;
        }
        let fate = match numbers.below(4) {
            0 if self.seen.losses < 8 => Fate::PrepareLost(0),
            1 if self.seen.losses < 8 => Fate::AnswerLost(0),
            _ => Fate::Delivered,
        };
        self.passage.meets(rt, world, fate);
        self.seen.note(fate);
        self.is_flying = false;
        read_all(rt, world, crate::player::other(self.side));
    }

    fn is_bounded(&self) -> bool {
        self.seen.sends <= self.work.saturating_add(self.seen.losses)
    }
}

/// Both ends send a stream each, in random order, with losses. Whether each took at most its own work and its own losses,
/// and each stream arrived intact.
fn both_send(rt: &impl Abort, alloc: Global, numbers: &mut Numbers, bytes: &[u8]) -> bool {
    let mut world = world(rt, alloc, 0);
    let mut client = Sender::begin(rt, &mut world, Side::Client, numbers, bytes);
    let mut server = Sender::begin(rt, &mut world, Side::Server, numbers, bytes);
    for _ in 0..10_000 {
        if client.is_done && server.is_done {
            break;
        }
        if numbers.below(2) == 0 {
            client.goes_on(rt, &mut world, numbers);
        } else {
            server.goes_on(rt, &mut world, numbers);
        }
    }
    let ends = [(Side::Client, 1), (Side::Server, 2)];
    let are_told = ends.iter().all(|(side, stream)| match world.trace().ledger(*side, *stream) {
        Some(ledger) => ledger.read() == ledger.written() && ledger.saw_end(),
        None => false,
    });
    drop(world);
    are_told && client.is_bounded() && server.is_bounded()
}

#[test]
fn both_ends_send(rt: HostRuntime) {
    let (bytes, mut numbers) = (bytes(&rt, rt.alloc()), Numbers::of(5));
    for n in 0..30 {
        sure!(&rt; both_send(&rt, rt.alloc(), &mut numbers, &bytes), n);
    }
}
