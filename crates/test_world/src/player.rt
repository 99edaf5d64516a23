//! A world to which an event that met no memory happens again.

use st_end::Totals;
use st_hop::Account;
use st_ilp::Moment;
use st_sender::EndConfig;
use st_world::{Event, Fault, Trace, World};
use st_world_parts::{Side, Told, Way};
use std::alloc::Allocator;
use std::process::Abort;

const IV: [u8; 12] = [7; 12];

/// What the ends report, how many Prepares were answered, and all claims and dues of the hops.
#[derive(Clone, Copy, Debug, PartialEq, Eq)]
struct Standing {
    client: Totals,
    server: Totals,
    answered: usize,
    claims: u64,
    dues: u64,
}

impl Standing {
    fn of<A: Allocator + Copy>(trace: &Trace<A>) -> Standing {
        let client = trace.end(Side::Client);
        let server = trace.end(Side::Server);
        let mut standing = Standing {
            client: client.totals(),
            server: server.totals(),
            answered: client
                .answered()
                .len()
                .saturating_add(server.answered().len()),
            claims: 0,
            dues: 0,
        };
        for place in 0..trace.hops() {
            standing.add_hop(trace, place);
        }
        standing
    }

    fn add_hop<A: Allocator + Copy>(&mut self, trace: &Trace<A>, place: usize) {
        let Some(hop) = trace.hop(place) else {
            return;
        };
        self.answered = self.answered.saturating_add(hop.answered().len());
        for account in 0..2 {
            let (claims, dues) = (hop.claims(account), hop.dues(account));
            self.claims = self.claims.saturating_add(claims.unwrap_or(0));
            self.dues = self.dues.saturating_add(dues.unwrap_or(0));
        }
    }

    /// The same, with one more Prepare answered.
    fn with_answer(self) -> Standing {
        Standing {
            answered: self.answered.saturating_add(1),
            ..self
        }
    }
}

/// A world of two hops at most.
#[derive(Drop)]
pub(crate) struct Player<A: Allocator + Copy> {
    world: World<A>,
    now: Moment,
    /// How many events the world could not record, and how many core calls ran out of memory.
    faults: u64,
    lacks: u64,
    /// How many answers were given on each link, to Prepares for the server and to those for the client.
    to_server: [usize; 3],
    to_client: [usize; 3],
}

impl<A: Allocator + Copy> Player<A> {
    pub(crate) fn new(
        rt: &impl Abort,
        alloc: A,
        hops: &[Account],
        config: EndConfig,
    ) -> Result<Player<A>, Fault> {
        let now = Moment::new(0).expect(rt, "it is not below 0");
        let world = World::with_hops(alloc, hops, config)?;
        Ok(Player {
            world,
            now,
            faults: 0,
            lacks: 0,
            to_server: [0; 3],
            to_client: [0; 3],
        })
    }

    pub(crate) fn trace(&self) -> &Trace<A> {
        self.world.trace()
    }

    /// How many requests were refused, whether by the world or in a core call.
    pub(crate) fn refusals(&self) -> u64 {
        self.faults.saturating_add(self.lacks)
    }

    /// How many core calls ran out of memory.
    pub(crate) fn lacks(&self) -> u64 {
        self.lacks
    }

    /// An event that meets memory.
    fn again(&mut self, rt: &impl Abort, event: &Event<'_>) -> Told<A> {
        match self.world.step(event) {
            Ok(told) => told,
            Err(_) => panic!(rt; "one request alone is refused"),
        }
    }

    /// An event. If the world could not record it, nothing has changed, and it happens again.
    fn record(&mut self, rt: &impl Abort, event: &Event<'_>) -> Told<A> {
        let before = Standing::of(self.world.trace());
        match self.world.step(event) {
            Ok(told) => told,
            Err(fault) => {
                sure!(rt; fault == Fault::NoMemory);
                sure!(rt; Standing::of(self.world.trace()) == before);
                self.faults = self.faults.saturating_add(1);
                self.again(rt, event)
            }
        }
    }

    /// That a core call ran out of memory, and changed nothing: a Prepare that arrived was answered T00.
    fn note_lack(&mut self, rt: &impl Abort, event: &Event<'_>, before: Standing) {
        sure!(rt; self.world.trace().refused());
        self.lacks = self.lacks.saturating_add(1);
        let mut want = before;
        if let Event::Arrive(link, way, _, _) = event {
            self.note_answer(rt, *link, *way);
            want = before.with_answer();
        }
        sure!(rt; Standing::of(self.world.trace()) == want);
    }

    /// The same, and again if the core call ran out of memory.
    fn take(&mut self, rt: &impl Abort, event: &Event<'_>) -> Told<A> {
        let before = Standing::of(self.world.trace());
        let told = self.record(rt, event);
        let Told::NoMemory = told else {
            return told;
        };
        self.note_lack(rt, event, before);
        self.again(rt, event)
    }

    /// How many answers were given on a link.
    fn given(&mut self, rt: &impl Abort, link: usize, way: Way) -> &mut usize {
        let given = match way {
            Way::ToServer => &mut self.to_server,
            Way::ToClient => &mut self.to_client,
        };
        given.get_mut(link).expect(rt, "there is the link")
    }

    /// One more answer on a link.
    fn note_answer(&mut self, rt: &impl Abort, link: usize, way: Way) {
        let given = self.given(rt, link, way);
        *given = given.saturating_add(1);
    }

    /// An event that is met by a call on a stream.
    pub(crate) fn call(&mut self, rt: &impl Abort, event: &Event<'_>) {
        sure!(rt; matches!(self.take(rt, event), Told::Call(Ok(()))));
    }

    /// An end opens its first stream, of this number.
    pub(crate) fn open(&mut self, rt: &impl Abort, side: Side, stream: u8) {
        match self.take(rt, &Event::OpenStream(side)) {
            Told::Opened(Ok(opened)) => sure!(rt; opened == stream),
            _ => panic!(rt; "it can be opened"),
        }
    }

    /// An end offers so much on a stream, which may receive this much.
    pub(crate) fn offer(&mut self, rt: &impl Abort, side: Side, stream: u8, amount: u64, max: u64) {
        self.call(rt, &Event::ReceiveMax(other(side), stream, max));
        self.call(rt, &Event::Offer(side, stream, amount));
    }

    /// An end's next Prepare is sent.
    pub(crate) fn send(&mut self, rt: &impl Abort, side: Side) {
        let event = Event::Send(side, IV, self.now);
        sure!(rt; matches!(self.take(rt, &event), Told::Sent));
    }

    /// A Prepare arrives at the far end of its link.
    fn come(&mut self, rt: &impl Abort, link: usize, way: Way, which: usize) -> Told<A> {
        let event = Event::Arrive(link, way, which, self.now);
        self.take(rt, &event)
    }

    /// A Prepare arrives at an end, which fulfills it.
    pub(crate) fn arrive(&mut self, rt: &impl Abort, link: usize, way: Way, which: usize) {
        match self.come(rt, link, way, which) {
            Told::Answered { reason, .. } => sure!(rt; reason == 0),
            _ => panic!(rt; "the end answers"),
        }
        self.note_answer(rt, link, way);
    }

    /// A Prepare arrives at a hop, which prepares it on the next link.
    pub(crate) fn pass(&mut self, rt: &impl Abort, link: usize, way: Way, which: usize) {
        sure!(rt; matches!(self.come(rt, link, way, which), Told::Went));
    }

    /// A Prepare arrives at a hop, which answers it.
    pub(crate) fn turn_back(&mut self, rt: &impl Abort, link: usize, way: Way, which: usize) {
        sure!(rt; matches!(self.come(rt, link, way, which), Told::Replied));
        self.note_answer(rt, link, way);
    }

    /// The link before this one, unless an end prepares its Prepares here.
    fn before(&self, link: usize, way: Way) -> Option<usize> {
        match way {
            Way::ToServer => link.checked_sub(1),
            Way::ToClient if link < self.world.trace().hops() => link.checked_add(1),
            Way::ToClient => None,
        }
    }

    /// An outcome arrives: an end applies it, and a hop gives an answer on the link before.
    fn outcome(&mut self, rt: &impl Abort, link: usize, way: Way, event: &Event<'_>) {
        let told = self.take(rt, event);
        match self.before(link, way) {
            None => sure!(rt; matches!(told, Told::Took(_))),
            Some(before) => {
                sure!(rt; matches!(told, Told::Replied));
                self.note_answer(rt, before, way);
            }
        }
    }

    /// The last answer of a link arrives.
    pub(crate) fn come_back(&mut self, rt: &impl Abort, link: usize, way: Way) {
        let last = *self.given(rt, link, way);
        let event = Event::AnswerArrives(link, way, last, self.now);
        self.outcome(rt, link, way, &event);
    }

    /// The answers to a Prepare are lost.
    pub(crate) fn lose(&mut self, rt: &impl Abort, link: usize, way: Way, which: usize) {
        let event = Event::Fault(link, way, which, self.now);
        self.outcome(rt, link, way, &event);
    }

    /// The result of a read of a stream at an end, of as many bytes as there are.
    pub(crate) fn read(&mut self, rt: &impl Abort, side: Side, stream: u8) -> Told<A> {
        self.take(rt, &Event::Read(side, stream, usize::MAX))
    }
}

/// The end on the other side.
pub(crate) fn other(side: Side) -> Side {
    match side {
        Side::Client => Side::Server,
        Side::Server => Side::Client,
    }
}
