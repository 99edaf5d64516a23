//! Runs in which one end alone sends, one Prepare at a time, and some Sends are lost: how many Sends they take, what is
//! delivered, and what is credited.

use crate::lossy::{Input, Met, Numbers, PACKET_LIMIT, Passage, begin, read_all, step, world};
use st_ilp::Moment;
use st_world::{Event, Trace, World};
use st_world_parts::{Side, Way};
use st_world_quiet::{Fate, LossyDelivery, lossy};
use std::alloc::Global;
use std::process::Abort;

/// How many bytes a stream may have.
const SIZES: [usize; 6] = [0, 1, 16_000, 16_001, 33_000, 50_000];

/// What was seen of a run.
#[derive(Clone, Copy, Debug, PartialEq, Eq)]
pub(crate) struct Seen {
    pub(crate) sends: u64,
    pub(crate) losses: u64,
    lost_answers: u64,
    paid: u64,
    credited: u64,
    /// How many streams' bytes were read whole, in order, to the end.
    whole: usize,
}

impl Seen {
    pub(crate) const NOTHING: Seen = Seen {
        sends: 0,
        losses: 0,
        lost_answers: 0,
        paid: 0,
        credited: 0,
        whole: 0,
    };

    pub(crate) fn note(&mut self, fate: Fate) {
        let is_lost = !matches!(fate, Fate::Delivered);
        let is_answered = matches!(fate, Fate::AnswerLost(_));
        self.sends = self.sends.saturating_add(1);
        self.losses = self.losses.saturating_add(u64::from(is_lost));
        self.lost_answers = self.lost_answers.saturating_add(u64::from(is_answered));
    }
}

/// What is to be sent, and how it is lost.
#[derive(Clone, Copy)]
struct Plan {
    hops: usize,
    streams: usize,
    sizes: [usize; 3],
    money: [u64; 3],
    most_losses: u64,
    /// One in `often` Sends is lost, until there were enough losses.
    often: u64,
}

impl Plan {
    fn draw(numbers: &mut Numbers) -> Plan {
        let mut plan = Plan {
            hops: numbers.below(4) as usize,
            streams: (numbers.below(3) as usize).saturating_add(1),
            sizes: [0; 3],
            money: [0; 3],
            most_losses: numbers.below(8),
            often: numbers.below(4).saturating_add(1),
        };
        for at in 0..plan.streams.min(3) {
            plan.sizes[at] = SIZES[numbers.below(6) as usize % 6];
            plan.money[at] = numbers.below(3).min(1).saturating_mul(numbers.below(600));
        }
        plan
    }

    /// All units that are offered.
    fn offered(&self) -> u64 {
        let [first, second, third] = self.money;
        first.saturating_add(second).saturating_add(third)
    }

    /// How many Sends a run without losses may take.
    fn bound(&self) -> u64 {
        let mut frames = 0u64;
        for size in &self.sizes {
            frames = frames.saturating_add((*size as u64).div_ceil(16_000));
        }
        let payments = self.offered().div_ceil(PACKET_LIMIT);
        frames.max(payments).saturating_add(self.streams as u64)
    }

    /// The fate of the next Send.
    fn fate(&self, numbers: &mut Numbers, losses: u64) -> Fate {
        let (is_lost, kind) = (numbers.below(self.often) == 0, numbers.below(2));
        let link = numbers.below((self.hops as u64).saturating_add(1)) as usize;
        match (is_lost && losses < self.most_losses, kind) {
            (false, _) => Fate::Delivered,
            (true, 0) => Fate::PrepareLost(link),
            (true, _) => Fate::AnswerLost(link),
        }
    }
}

/// Whether a stream's bytes were all written and read, and its end was reported.
fn is_whole(trace: &Trace<Global>, side: Side, stream: u8, input: &[u8]) -> bool {
    let Some(ledger) = trace.ledger(side, stream) else {
        return false;
    };
    ledger.read() == input && ledger.saw_end()
}

/// The first `count` bytes of a text.
pub(crate) fn front(bytes: &[u8], count: usize) -> &[u8] {
    match bytes.get(0..count) {
        Some(front) => front,
        None => bytes,
    }
}

/// The client sends until it has nothing more to send.
fn send_all(
    rt: &impl Abort,
    world: &mut World<Global>,
    plan: &Plan,
    numbers: &mut Numbers,
) -> Seen {
    let mut seen = Seen::NOTHING;
    let mut passage = Passage::new(rt, Way::ToServer, plan.hops);
    for _ in 0..1_000 {
        if !passage.sends(rt, world, Side::Client) {
            return seen;
        }
        let fate = plan.fate(numbers, seen.losses);
        passage.meets(rt, world, fate);
        seen.note(fate);
        read_all(rt, world, Side::Server);
    }
    panic!(rt; "it sends on and on")
}

/// The number of the client's stream at this place.
fn stream_at(at: usize) -> u8 {
    match at {
        0 => 1,
        1 => 3,
        _ => 5,
    }
}

/// Opens each stream of a plan, with just the room for its money and for what lost answers may carry.
fn begin_all(rt: &impl Abort, world: &mut World<Global>, plan: &Plan, bytes: &[u8]) {
    for at in 0..plan.streams.min(3) {
        let money = plan.money[at];
        let spare = plan.most_losses.saturating_mul(money.min(PACKET_LIMIT));
        let input = Input {
            stream: stream_at(at),
            bytes: front(bytes, plan.sizes[at]),
            money,
            receive_max: money.saturating_add(spare),
        };
        begin(rt, world, Side::Client, &input);
    }
}

/// How many streams of a plan arrived intact.
fn whole_of(trace: &Trace<Global>, plan: &Plan, bytes: &[u8]) -> usize {
    let mut whole = 0usize;
    for at in 0..plan.streams.min(3) {
        let is_one = is_whole(
            trace,
            Side::Client,
            stream_at(at),
            front(bytes, plan.sizes[at]),
        );
        whole = whole.saturating_add(usize::from(is_one));
    }
    whole
}

/// A run. Its world is dropped by a call: if it ended with its scope, the proof would take it apart here.
fn play(rt: &impl Abort, alloc: Global, plan: &Plan, numbers: &mut Numbers, bytes: &[u8]) -> Seen {
    let mut world = world(rt, alloc, plan.hops);
    begin_all(rt, &mut world, plan, bytes);
    let seen = send_all(rt, &mut world, plan, numbers);
    let seen = Seen {
        paid: world.trace().end(Side::Client).totals().paid,
        credited: world.trace().end(Side::Server).totals().credited,
        whole: whole_of(world.trace(), plan, bytes),
        ..seen
    };
    drop(world);
    seen
}

pub(crate) fn bytes(rt: &impl Abort, alloc: Global) -> Vec<u8> {
    let mut bytes = Vec::new(alloc);
    for place in 0..50_000_usize {
        sure!(rt; bytes.push((place % 251) as u8).is_ok());
    }
    bytes
}

impl Seen {
    /// Whether a run took at most its bound and one Send more for each that was lost, brought all bytes and all money, and
    /// in addition at most what lost answers carried.
    fn is_lawful(&self, plan: &Plan) -> bool {
        let most = self.lost_answers.saturating_mul(PACKET_LIMIT);
        self.whole == plan.streams
            && self.paid == plan.offered()
            && self.sends <= plan.bound().saturating_add(self.losses)
            && self.credited >= self.paid
            && self.credited.saturating_sub(self.paid) <= most
    }

    /// Whether it took just as many, of which some were lost.
    fn is_at_bound(&self, plan: &Plan) -> bool {
        self.losses > 0 && self.sends == plan.bound().saturating_add(self.losses)
    }
}

/// Each lost Send costs at most one more. All bytes and money arrive, and in addition at most what lost answers
/// carried.
#[test]
fn a_lost_send_costs_itself(rt: HostRuntime) {
    let bytes = bytes(&rt, rt.alloc());
    let mut numbers = Numbers::of(1);
    let (mut reached, mut more) = (false, false);
    for n in 0..12 {
        let plan = Plan::draw(&mut numbers);
        let seen = play(&rt, rt.alloc(), &plan, &mut numbers, &bytes);
        sure!(&rt; seen.is_lawful(&plan), n);
        reached = reached || seen.is_at_bound(&plan);
        more = more || seen.credited > seen.paid;
    }
    sure!(&rt; reached && more);
}

/// How many fates a list has.
const FATES: usize = 16;

/// A list of fates of a plan.
fn list_of(plan: &Plan, numbers: &mut Numbers) -> [Fate; FATES] {
    let (mut fates, mut losses) = ([Fate::Delivered; FATES], 0u64);
    for at in 0..FATES {
        fates[at] = plan.fate(numbers, losses);
        losses = losses.saturating_add(u64::from(fates[at] != Fate::Delivered));
    }
    fates
}

/// What is seen of a run by a list of fates.
fn seen_of(played: &LossyDelivery<Global>, plan: &Plan, fates: &[Fate], bytes: &[u8]) -> Seen {
    let trace = played.trace();
    let mut seen = Seen::NOTHING;
    for at in 0..fates.len().min(played.sends() as usize) {
        seen.note(fates[at]);
    }
    Seen {
        sends: played.sends(),
        paid: trace.end(Side::Client).totals().paid,
        credited: trace.end(Side::Server).totals().credited,
        whole: whole_of(trace, plan, bytes),
        ..seen
    }
}

/// A run by a list of fates, with just the room for the money and for what lost answers may carry.
fn play_list(rt: &impl Abort, alloc: Global, plan: &Plan, fates: &[Fate], bytes: &[u8]) -> Seen {
    let ([one, two, three], count) = (plan.sizes, plan.streams.min(3));
    let input = [front(bytes, one), front(bytes, two), front(bytes, three)];
    let mut receive_max = plan.money;
    for at in 0..3 {
        let money = plan.money[at];
        let spare = plan.most_losses.saturating_mul(money.min(PACKET_LIMIT));
        receive_max[at] = money.saturating_add(spare);
    }
    let world = world(rt, alloc, plan.hops);
    match lossy(
        world,
        &input[..count],
        &plan.money[..count],
        &receive_max[..count],
        fates,
    ) {
        Ok(played) => {
            let seen = seen_of(&played, plan, fates, bytes);
            sure!(rt; seen.credited.saturating_sub(seen.paid) == played.carried());
            drop(played);
            seen
        }
        Err(_) => panic!(rt; "there is memory"),
    }
}

/// 200 lists of fates, over none to three hops: no run has more Sends than its bound and its losses, and some have as
/// many. What is credited in addition to all money is exactly what the lost answers carried.
#[test]
fn no_list_passes_the_bound(rt: HostRuntime) {
    let bytes = bytes(&rt, rt.alloc());
    let mut numbers = Numbers::of(3);
    let (mut reached, mut more) = (false, false);
    for n in 0..200 {
        let plan = Plan::draw(&mut numbers);
        let fates = list_of(&plan, &mut numbers);
        let seen = play_list(&rt, rt.alloc(), &plan, &fates, &bytes);
        sure!(&rt; seen.is_lawful(&plan), n);
        reached = reached || seen.is_at_bound(&plan);
        more = more || seen.credited > seen.paid;
    }
    sure!(&rt; reached && more);
}

/// 40 bytes and 100 units on one stream, of which the first answer is lost.
fn lose_the_first(rt: &impl Abort, alloc: Global, receive_max: u64) -> Seen {
    let (mut world, bytes) = (world(rt, alloc, 0), [5; 40]);
    let input = Input {
        stream: 1,
        bytes: &bytes,
        money: 100,
        receive_max,
    };
    begin(rt, &mut world, Side::Client, &input);
    let now = Moment::new(0).expect(rt, "it is not below 0");
    let mut sends = 0u64;
    for which in 1..51 {
        if step(rt, &mut world, &Event::Send(Side::Client, [7; 12], now)) != Met::Sent {
            break;
        }
        sends = which as u64;
        let _answered = step(rt, &mut world, &Event::Arrive(0, Way::ToServer, which, now));
        let outcome = if which == 1 {
            Event::Fault(0, Way::ToServer, which, now)
        } else {
            Event::AnswerArrives(0, Way::ToServer, which, now)
        };
        let _learned = step(rt, &mut world, &outcome);
        read_all(rt, &mut world, Side::Server);
    }
    let seen = Seen {
        paid: world.trace().end(Side::Client).totals().paid,
        credited: world.trace().end(Side::Server).totals().credited,
        whole: usize::from(is_whole(world.trace(), Side::Client, 1, &bytes)),
        sends,
        ..Seen::NOTHING
    };
    drop(world);
    seen
}

/// With room for what the lost answer carried: the Prepare, the same again, the close. Without it: the lost one, one that
/// is rejected since the receive max is passed, the bytes alone, a StreamMoneyBlocked (RFC 0029, section 5.3). Then the
/// money that came is never acknowledged, and the stream stays open.
#[test]
fn a_lost_answer_needs_room(rt: HostRuntime) {
    let wide = lose_the_first(&rt, rt.alloc(), 200);
    sure!(&rt; (wide.sends, wide.paid, wide.credited, wide.whole) == (3, 100, 200, 1));
    let tight = lose_the_first(&rt, rt.alloc(), 100);
    sure!(&rt; (tight.sends, tight.paid, tight.credited, tight.whole) == (4, 0, 100, 0));
}
