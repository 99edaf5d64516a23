//! What an event of a lossy run leads to, and the numbers by which such runs are drawn.

use st_ilp::Moment;
use st_sender::{EndConfig, MAX_PACKETS};
use st_world::{Event, World};
use st_world_parts::{Side, Told, Way};
use st_world_quiet::Fate;
use std::alloc::Global;
use std::process::Abort;

/// The most units that one Prepare brings.
pub(crate) const PACKET_LIMIT: u64 = 100;

/// The most links of a run: three hops have four.
const LINKS: usize = 4;

/// What an event led to.
#[derive(Clone, Copy, Debug, PartialEq, Eq)]
pub(crate) enum Met {
    /// An end sent a Prepare.
    Sent,
    /// A hop forwarded a Prepare.
    Forwarded,
    /// An end fulfilled a Prepare.
    Fulfilled,
    /// A hop sent an answer back.
    Replied,
    /// The sender received a Fulfill and booked it.
    Booked,
    /// The sender learned of another outcome.
    Failed,
    /// A call was met.
    Called,
    /// Anything else.
    Other,
}

fn kind_of(told: &Told<Global>) -> Met {
    match told {
        Told::Sent => Met::Sent,
        Told::Went => Met::Forwarded,
        Told::Answered { reason: 0, .. } => Met::Fulfilled,
        Told::Replied => Met::Replied,
        Told::Took(true) => Met::Booked,
        Told::Took(false) => Met::Failed,
        Told::Call(Ok(())) | Told::Opened(Ok(_)) => Met::Called,
        _ => Met::Other,
    }
}

/// An event, and what it led to.
pub(crate) fn step(rt: &impl Abort, world: &mut World<Global>, event: &Event<'_>) -> Met {
    match world.step(event) {
        Ok(told) => kind_of(&told),
        Err(_) => panic!(rt; "there is memory"),
    }
}

/// The server reads all that it can of each stream of either parity up to 6.
pub(crate) fn read_all(rt: &impl Abort, world: &mut World<Global>, side: Side) {
    for stream in 1..7 {
        if world.has_stream(side, stream) {
            let _read = step(rt, world, &Event::Read(side, stream, usize::MAX));
        }
    }
}

/// A world of `hops` hops, at most one Prepare in flight.
pub(crate) fn world(rt: &impl Abort, alloc: Global, hops: usize) -> World<Global> {
    let config = EndConfig::new(1, MAX_PACKETS, PACKET_LIMIT).expect(rt, "it is allowed");
    World::new(alloc, hops, config).expect(rt, "there is memory")
}

/// What one stream is to carry, and how much it may receive.
#[derive(Clone, Copy)]
pub(crate) struct Input<'a> {
    pub(crate) stream: u8,
    pub(crate) bytes: &'a [u8],
    pub(crate) money: u64,
    pub(crate) receive_max: u64,
}

/// An end opens its next stream, gives it all that it is to carry, and closes it.
pub(crate) fn begin(rt: &impl Abort, world: &mut World<Global>, side: Side, input: &Input<'_>) {
    let (stream, peer) = (input.stream, crate::player::other(side));
    let events = [
        Event::ReceiveMax(peer, stream, input.receive_max),
        Event::OpenStream(side),
        Event::Offer(side, stream, input.money),
        Event::Write(side, stream, input.bytes),
        Event::Close(side, stream),
    ];
    for event in &events {
        sure!(rt; step(rt, world, event) == Met::Called, u64::from(stream));
    }
}

/// The Prepares and answers of one way of a chain so far, by link.
#[derive(Clone, Copy)]
pub(crate) struct Passage {
    way: Way,
    hops: usize,
    now: Moment,
    prepares: [usize; LINKS],
    answers: [usize; LINKS],
}

impl Passage {
    /// Nothing passed yet. Links are numbered from the client on, so one to the client is for a world without hops.
    pub(crate) fn new(rt: &impl Abort, way: Way, hops: usize) -> Passage {
        let now = Moment::new(0).expect(rt, "it is not below 0");
        Passage {
            way,
            hops,
            now,
            prepares: [0; LINKS],
            answers: [0; LINKS],
        }
    }

    /// Whether an end sent a Prepare.
    pub(crate) fn sends(&mut self, rt: &impl Abort, world: &mut World<Global>, side: Side) -> bool {
        let is_sent = step(rt, world, &Event::Send(side, [7; 12], self.now)) == Met::Sent;
        if is_sent {
            self.prepares[0] = self.prepares[0].saturating_add(1);
        }
        is_sent
    }

    /// The Prepare crosses `links` links.
    fn go(&mut self, rt: &impl Abort, world: &mut World<Global>, links: usize) {
        for link in 0..links.min(LINKS) {
            let event = Event::Arrive(link, self.way, self.prepares[link], self.now);
            if link == self.hops {
                sure!(rt; step(rt, world, &event) == Met::Fulfilled, link as u64);
                self.answers[link] = self.answers[link].saturating_add(1);
            } else {
                sure!(rt; step(rt, world, &event) == Met::Forwarded, link as u64);
                let next = link.saturating_add(1) % LINKS;
                self.prepares[next] = self.prepares[next].saturating_add(1);
            }
        }
    }

    /// An outcome on a link: on the first the end learns it, on another a hop gives an answer on the link before.
    fn comes(
        &mut self,
        rt: &impl Abort,
        world: &mut World<Global>,
        link: usize,
        event: &Event<'_>,
        last: Met,
    ) {
        if link == 0 {
            sure!(rt; step(rt, world, event) == last);
        } else {
            sure!(rt; step(rt, world, event) == Met::Replied, link as u64);
            let before = link.saturating_sub(1) % LINKS;
            self.answers[before] = self.answers[before].saturating_add(1);
        }
    }

    /// The answer returns over the links from the last down to this one.
    fn come_back(&mut self, rt: &impl Abort, world: &mut World<Global>, first: usize) {
        for back in 0..self.hops.saturating_add(1).saturating_sub(first) {
            let link = self.hops.saturating_sub(back);
            let event = Event::AnswerArrives(link, self.way, self.answers[link % LINKS], self.now);
            self.comes(rt, world, link, &event, Met::Booked);
        }
    }

    /// Who waits on a link up to this one learns that no answer will arrive.
    fn fail(&mut self, rt: &impl Abort, world: &mut World<Global>, last: usize) {
        for back in 0..last.saturating_add(1) {
            let link = last.saturating_sub(back);
            let event = Event::Fault(link, self.way, self.prepares[link % LINKS], self.now);
            self.comes(rt, world, link, &event, Met::Failed);
        }
    }

    /// What becomes of the Prepare that was sent last.
    pub(crate) fn meets(&mut self, rt: &impl Abort, world: &mut World<Global>, fate: Fate) {
        let links = self.hops.saturating_add(1);
        match fate {
            Fate::Delivered => {
                self.go(rt, world, links);
                self.come_back(rt, world, 0);
            }
            Fate::PrepareLost(link) => {
                self.go(rt, world, link);
                self.fail(rt, world, link);
            }
            Fate::AnswerLost(link) => {
                self.go(rt, world, links);
                self.come_back(rt, world, link.saturating_add(1));
                self.fail(rt, world, link);
            }
        }
    }
}

/// A row of numbers that a seed determines: a linear congruential generator with Knuth's constants (MMIX).
#[derive(Drop)]
pub(crate) struct Numbers {
    state: u64,
}

impl Numbers {
    pub(crate) fn of(seed: u64) -> Numbers {
        Numbers { state: seed }
    }

    /// The next number below a bound, or 0 if that is 0.
    pub(crate) fn below(&mut self, bound: u64) -> u64 {
        self.state = self
            .state
            .wrapping_mul(6_364_136_223_846_793_005)
            .wrapping_add(1_442_695_040_888_963_407);
        (self.state >> 33).checked_rem(bound).unwrap_or(0)
    }
}
