//! Prepares that are sent over a chain, one at a time, and their answers.

ghost use Rattle.std.specs.Prelude.{◌≡◌, ◌+◌, ◌-◌, ◌≤◌, ◌<◌, ◌∷◌, [], OnOk, OnErr, IfErr};
ghost use Rattle.st_world_parts.specs.Sides.{Client, Server};
ghost use Rattle.st_world_parts.specs.Seen.{way_seen};
ghost use Rattle.ilpstream_local.specs.Playing.{Continues, IsLost, StopsPlay, is_lost, most_events};
ghost use Rattle.ilpstream_local.specs.Schedule.{Begins, BeginsCrossing, BeginsEach, BeginsToGo, BeginsTurn, Crosses, Goes, IsCounted, Takes, Turn, answer, arrival, arrived, each, fault_at, link_of, number_on};

use crate::fault::LocalFault;
use crate::play::Play;
use st_world::Event;
use st_world_parts::{Side, Way};
use std::alloc::Allocator;

/// How many Prepares were sent so far. Each that is not lost is delivered over every link, and so is its answer. So the
/// numbers of both are the same on all links, except the client's own, which counts lost ones too.
#[derive(Clone, Copy, Drop)]
pub(crate) struct Counts {
    /// The Prepares that the client sent.
    pub(crate) sent: usize,
    /// The Prepares of the client that were answered and not lost.
    answered: usize,
    /// The Prepares that the server sent.
    pub(crate) returned: usize,
}

impl Counts {
    pub(crate) fn none() -> Counts
        ensures { (result.sent ≡ 0) × (result.answered ≡ 0) × (result.returned ≡ 0) }
    {
        Counts {
            sent: 0,
            answered: 0,
            returned: 0,
        }
    }

    /// How many Prepares of the client were lost.
    pub(crate) fn lost(&self) -> u64
        ensures { result ≡ self.now.sent - self.now.answered }
    {
        self.sent.saturating_sub(self.answered) as u64
    }

    /// Whether the client's last Prepare is one that is lost: `lose` is not 0, and divides its number.
    fn is_lost(&self, lose: u64) -> bool
        ensures { result ≡ is_lost Client lose self.now.sent }
    {
        lose > 0 && (self.sent as u64).is_multiple_of(lose)
    }
}

/// A link of a chain by how many are before it on a way.
fn link_on(way: Way, hops: usize, before: usize) -> usize
    ensures { result ≡ link_of (way_seen way) hops before }
{
    match way {
        Way::ToServer => before,
        Way::ToClient => hops.saturating_sub(before),
    }
}

/// The number of a Prepare on the link of its way that this many others follow.
fn number_at(first: usize, number: usize, before: usize) -> usize
    ensures { result ≡ number_on first number before }
{
    if before == 0 { first } else { number }
}

/// A Prepare is delivered over the link of its way that follows this many others. It has one number on the first of
/// them, and another on those after it.
fn arrive<A: Allocator + Copy>(
    play: &mut Play<A>,
    way: Way,
    first: usize,
    number: usize,
    before: usize,
) -> Result<(), LocalFault>
    requires { way_seen way ≡ Client → IsLost play.old.asked.lose first → ⊥ }
    ensures kept { Continues play.old play.new }
    ensures taken { OnOk result (Takes (arrival (way_seen way) play.old.asked.hops first number before ∷ []) play.old play.new) }
    ensures begun { OnErr result (Begins (arrival (way_seen way) play.old.asked.hops first number before) play.old play.new) }
    ensures why { IfErr result (StopsPlay play.new) }
{
    let link = link_on(way, play.hops(), before);
    let which = number_at(first, number, before);
    let _told = play.pass(&Event::Arrive(link, way, which, Play::<A>::now()))?;
    Ok(())
}

/// A Prepare that is not lost is delivered over all links of a way.
fn go_across<A: Allocator + Copy>(
    play: &mut Play<A>,
    way: Way,
    first: usize,
    number: usize,
) -> Result<(), LocalFault>
    requires { way_seen way ≡ Client → IsLost play.old.asked.lose first → ⊥ }
    ensures kept { Continues play.old play.new }
    ensures taken { OnOk result (Takes (each (arrival (way_seen way) play.old.asked.hops first number) (play.old.asked.hops + 1)) play.old play.new) }
    ensures begun { OnErr result (BeginsEach (arrival (way_seen way) play.old.asked.hops first number) (play.old.asked.hops + 1) play.old play.new) }
    ensures why { IfErr result (StopsPlay play.new) }
{
    let hops = play.hops();
    for before in 0..hops + 1 {
        arrive(play, way, first, number, before)?;
    }
    Ok(())
}

/// An answer of this number is delivered over the link that this many others follow.
fn return_on<A: Allocator + Copy>(
    play: &mut Play<A>,
    way: Way,
    number: usize,
    after: usize,
) -> Result<(), LocalFault>
    ensures kept { Continues play.old play.new }
    ensures taken { OnOk result (Takes (answer (way_seen way) play.old.asked.hops number after ∷ []) play.old play.new) }
    ensures begun { OnErr result (Begins (answer (way_seen way) play.old.asked.hops number after) play.old play.new) }
    ensures why { IfErr result (StopsPlay play.new) }
{
    let hops = play.hops();
    let link = link_on(way, hops, hops.saturating_sub(after));
    let _told = play.pass(&Event::AnswerArrives(link, way, number, Play::<A>::now()))?;
    Ok(())
}

/// An answer of this number is delivered over all links of a way.
fn come_back<A: Allocator + Copy>(
    play: &mut Play<A>,
    way: Way,
    number: usize,
) -> Result<(), LocalFault>
    ensures kept { Continues play.old play.new }
    ensures taken { OnOk result (Takes (each (answer (way_seen way) play.old.asked.hops number) (play.old.asked.hops + 1)) play.old play.new) }
    ensures begun { OnErr result (BeginsEach (answer (way_seen way) play.old.asked.hops number) (play.old.asked.hops + 1) play.old play.new) }
    ensures why { IfErr result (StopsPlay play.new) }
{
    let hops = play.hops();
    for after in 0..hops + 1 {
        return_on(play, way, number, after)?;
    }
    Ok(())
}

/// A Prepare that is not lost is delivered over all links of a way, and so is its answer.
fn cross<A: Allocator + Copy>(
    play: &mut Play<A>,
    way: Way,
    first: usize,
    number: usize,
) -> Result<(), LocalFault>
    requires { way_seen way ≡ Client → IsLost play.old.asked.lose first → ⊥ }
    ensures kept { Continues play.old play.new }
    ensures crosses { OnOk result (Crosses (way_seen way) first number play.old play.new) }
    ensures begun { OnErr result (BeginsCrossing (way_seen way) first number play.old play.new) }
    ensures why { IfErr result (StopsPlay play.new) }
{
    go_across(play, way, first, number)?;
    come_back(play, way, number)
}

/// The client learns that its last Prepare has no answer: it is one that is lost.
fn lose<A: Allocator + Copy>(play: &mut Play<A>, number: usize) -> Result<(), LocalFault>
    requires { IsLost play.old.asked.lose number }
    ensures kept { Continues play.old play.new }
    ensures taken { OnOk result (Takes (fault_at Client number ∷ []) play.old play.new) }
    ensures begun { OnErr result (Begins (fault_at Client number) play.old play.new) }
    ensures why { IfErr result (StopsPlay play.new) }
{
    let event = Event::Fault(0, Way::ToServer, number, Play::<A>::now());
    let _told = play.pass(&event)?;
    Ok(())
}

/// The client sent a Prepare, which is counted. It is lost, if that is asked for; otherwise it is delivered to the
/// server, and its answer to the client.
fn follow<A: Allocator + Copy>(play: &mut Play<A>, counts: &mut Counts) -> Result<(), LocalFault>
    requires few { counts.old.sent < most_events }
    requires counted { counts.old.answered ≡ arrived Client play.old.asked.lose counts.old.sent }
    ensures sent { counts.new.sent ≡ counts.old.sent + 1 }
    ensures counted { counts.new.answered ≡ arrived Client play.old.asked.lose (counts.old.sent + 1) }
    ensures returned { counts.new.returned ≡ counts.old.returned }
    ensures kept { Continues play.old play.new }
    ensures goes { OnOk result (Goes Client (counts.old.sent + 1) play.old play.new) }
    ensures begun { OnErr result (BeginsToGo Client (counts.old.sent + 1) play.old play.new) }
    ensures why { IfErr result (StopsPlay play.new) }
{
    counts.sent += 1;
    if counts.is_lost(play.lose()) {
        return lose(play, counts.sent);
    }
    counts.answered = counts.answered.saturating_add(1);
    cross(play, Way::ToServer, counts.sent, counts.answered)
}

/// The client sends, if there is something to send. The Prepare is lost, if that is asked for; otherwise it is
/// delivered to the server, and its answer to the client.
pub(crate) fn send_client<A: Allocator + Copy>(
    play: &mut Play<A>,
    counts: &mut Counts,
) -> Result<(), LocalFault>
    requires counted { IsCounted play.old.asked.lose play.old.events counts.old }
    ensures counted { OnOk result (IsCounted play.new.asked.lose play.new.events counts.new) }
    ensures returned { counts.new.returned ≡ counts.old.returned }
    ensures turn { OnOk result (Turn Client counts.old.sent counts.new.sent play.old play.new) }
    ensures begun { OnErr result (BeginsTurn Client counts.old.sent play.old play.new) }
    ensures kept { Continues play.old play.new }
    ensures some { OnOk result (play.old.events < play.new.events) }
    ensures room { OnOk result (play.old.events < most_events) }
    ensures why { IfErr result (StopsPlay play.new) }
{
    if !play.send(Side::Client)? {
        return Ok(());
    }
    follow(play, counts)
}

/// The server sends, if there is something to send: the Prepare is delivered to the client, and its answer to the
/// server.
pub(crate) fn send_server<A: Allocator + Copy>(
    play: &mut Play<A>,
    counts: &mut Counts,
) -> Result<(), LocalFault>
    requires counted { IsCounted play.old.asked.lose play.old.events counts.old }
    ensures counted { OnOk result (IsCounted play.new.asked.lose play.new.events counts.new) }
    ensures sent { counts.new.sent ≡ counts.old.sent }
    ensures turn { OnOk result (Turn Server counts.old.returned counts.new.returned play.old play.new) }
    ensures begun { OnErr result (BeginsTurn Server counts.old.returned play.old play.new) }
    ensures kept { Continues play.old play.new }
    ensures why { IfErr result (StopsPlay play.new) }
{
    if !play.send(Side::Server)? {
        return Ok(());
    }
    counts.returned = counts.returned.saturating_add(1);
    cross(play, Way::ToClient, counts.returned, counts.returned)
}
