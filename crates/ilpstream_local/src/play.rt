//! A world that is played event by event.

ghost use Rattle.std.specs.Prelude.{◌≡◌, ◌≢◌, ◌↔◌, ◌+◌, ◌<◌, ◌≤◌, ℕ, [], ◌∷◌, MatchBool, true, false, length, pos, IfOk, IfErr, IsOkUnless, OnErr, OnOk};
ghost use Rattle.st_world_parts.specs.Sides.{Client};
ghost use Rattle.st_world_parts.specs.Events as events;
ghost use Rattle.st_world.specs.Steps.{Happens};
ghost use Rattle.st_world_parts.specs.Seen.{side_seen, told_seen};
ghost use Rattle.st_world.specs.Seen.{event_seen};
ghost use Rattle.st_world.specs.Left.{lacks};
ghost use Rattle.ilpstream_local.specs.Playing.{Continues, Fits, HasFailed, IsAside, Plays, StopsPlay, Writes, local_config, most_events, written_on, read_on};
ghost use Rattle.ilpstream_local.specs.Schedule.{Begins, IsDenied, IsIdle, IsSent, Takes, Tells, has_ended, is_sent, iv_of, sending, start};

use crate::fault::LocalFault;
use ilpstream_settings::LocalSettings;
use st_ilp::Moment;
use st_sender::{EndConfig, MAX_PACKET_LIMIT, MAX_PACKETS};
use st_world::{Event, World};
use st_world_parts::{Side, Told};
use std::alloc::Allocator;
use std::marker::Model;

/// The most events of a run.
pub const MAX_EVENTS: u64 = 1_000_000;

/// A world, what is asked of it, and how many events it met.
#[derive(Drop)]
pub(crate) struct Play<A: Allocator + Copy> {
    world: World<A>,
    settings: LocalSettings,
    events: u64,
}

impl<A: Allocator + Copy> Model for Play<A> {
    ghost use Rattle.std.specs.Prelude.{◌≤◌};
    ghost use Rattle.std.specs.Coded.{codes};
    ghost use Rattle.std.specs.FinMap as map;
    ghost use Rattle.ilpstream_local.specs.Playing.{Played, Plays, most_events};

    ghost Value = { Played };

    ghost coded = { Prim.hlevel (codes, map.code) };

    ghost view = { λ a. record { world = a.world; asked = a.settings; events = a.events } };

    ghost invariant = { λ a. (a.settings.hops ≤ 8) × (a.events ≤ most_events) × Plays a.settings a.events a.world };
}

/// One Prepare at a time, at most the number that a connection may send, of amounts without a limit.
fn config() -> EndConfig
    ensures { result ≡ local_config }
{
    EndConfig::new(1, MAX_PACKETS, MAX_PACKET_LIMIT).unwrap()
}

/// Whether the call ran out of memory.
fn lacks<A: Allocator + Copy>(told: &Told<A>) -> bool
    ensures { result ≡ lacks (told_seen told.now) }
{
    matches!(told, Told::NoMemory)
}

/// Whether a Prepare was sent.
fn is_sent<A: Allocator + Copy>(told: &Told<A>) -> bool
    ensures { result ≡ is_sent (told_seen told.now) }
{
    matches!(told, Told::Sent)
}

impl<A: Allocator + Copy> Play<A> {
    /// A world with the number of hops that is asked for, in which nothing has happened.
    pub(crate) fn new(alloc: A, settings: &LocalSettings) -> Result<Play<A>, LocalFault>
        requires { settings.now.hops ≤ 8 }
        ensures start { IfOk result (λ p. p ≡ start settings.now) }
        ensures blank { IfOk result (λ p. (k : ℕ) → written_on p.world k ≡ []) }
        ensures only_memory { IsOkUnless result LocalFault.NoMemory }
    {
        let Ok(world) = World::new(alloc, usize::from(settings.hops), config()) else {
            return Err(LocalFault::NoMemory);
        };
        Ok(Play {
            world,
            settings: *settings,
            events: 0,
        })
    }

    /// How many hops there are.
    pub(crate) fn hops(&self) -> usize
        ensures count { result ≡ self.now.asked.hops }
        ensures few { result ≤ 8 }
    {
        usize::from(self.settings.hops)
    }

    /// Of how many Prepares of the client one is lost: 0 for none.
    pub(crate) fn lose(&self) -> u64
        ensures { result ≡ self.now.asked.lose }
    {
        self.settings.lose
    }

    /// How many streams the input is cut into.
    pub(crate) fn streams(&self) -> usize
        ensures { result ≡ self.now.asked.streams }
    {
        usize::from(self.settings.streams)
    }

    /// How many events there were.
    pub(crate) fn events(&self) -> u64
        ensures count { result ≡ self.now.events }
        ensures few { result ≤ most_events }
    {
        self.events
    }

    /// The one moment at which all happens.
    pub(crate) fn now() -> Moment
        ensures { result ≡ pos 0 }
    {
        Moment::new(0).unwrap()
    }

    /// The number of the next event, as an IV that no other has.
    fn iv(&self) -> [u8; 12]
        ensures { result ≡ iv_of self.now.events }
    {
        let mut iv = [0; 12];
        iv[4..].copy_from_slice(&self.events.to_be_bytes());
        iv
    }

    /// Plays one event. Fails if it would be one too many, and if memory is refused.
    pub(crate) fn take(&mut self, event: &Event<'_>) -> Result<Told<A>, LocalFault>
        requires { Fits self.old.asked.lose (event_seen event.now) }
        ensures happens { IfOk result (λ told. Happens self.old.world (event_seen event.now) (told_seen told) self.new.world) }
        ensures tells { IfOk result (λ told. Tells (event_seen event.now) (told_seen told) self.old self.new) }
        ensures begun { OnErr result (Begins (event_seen event.now) self.old self.new) }
        ensures room { OnOk result (self.old.events < most_events) }
        ensures missed { OnErr result (Continues self.old self.new) }
        ensures why { IfErr result (StopsPlay self.new) }
    {
        if self.events >= MAX_EVENTS {
            return Err(LocalFault::Events);
        }
        let Ok(told) = self.world.step(event) else {
            return Err(LocalFault::NoMemory);
        };
        self.events += 1;
        if lacks(&told) {
            return Err(LocalFault::NoMemory);
        }
        Ok(told)
    }

    /// An event by which nothing is written at the client. Returns its result.
    pub(crate) fn pass(&mut self, event: &Event<'_>) -> Result<Told<A>, LocalFault>
        requires aside { IsAside (event_seen event.now) }
        requires fits { Fits self.old.asked.lose (event_seen event.now) }
        ensures kept { Continues self.old self.new }
        ensures tells { IfOk result (λ told. Tells (event_seen event.now) (told_seen told) self.old self.new) }
        ensures taken { OnOk result (Takes (event_seen event.now ∷ []) self.old self.new) }
        ensures begun { OnErr result (Begins (event_seen event.now) self.old self.new) }
        ensures room { OnOk result (self.old.events < most_events) }
        ensures why { IfErr result (StopsPlay self.new) }
    {
        let told = self.take(event)?;
        Ok(told)
    }

    /// An end sends. Returns whether it sent a Prepare.
    pub(crate) fn send(&mut self, side: Side) -> Result<bool, LocalFault>
        ensures kept { Continues self.old self.new }
        ensures sent { IfOk result (λ sent. MatchBool sent (IsSent (side_seen side) self.old self.new) (IsIdle (side_seen side) self.old self.new)) }
        ensures begun { OnErr result (Begins (sending (side_seen side) self.old.events) self.old self.new) }
        ensures room { OnOk result (self.old.events < most_events) }
        ensures why { IfErr result (StopsPlay self.new) }
    {
        let iv = self.iv();
        let told = self.pass(&Event::Send(side, iv, Play::<A>::now()))?;
        Ok(is_sent(&told))
    }

    /// Writes bytes on a stream of the client. Returns whether it accepted them.
    pub(crate) fn write(&mut self, stream: u8, bytes: &[u8]) -> Result<bool, LocalFault>
        ensures taken { IfOk result (λ taken. MatchBool taken (Writes stream bytes.now self.old self.new) (Continues self.old self.new)) }
        ensures event { Begins (events.Write Client stream bytes.now) self.old self.new }
        ensures missed { OnErr result (Continues self.old self.new) }
        ensures why { IfErr result (StopsPlay self.new) }
        ensures denied { IfOk result (λ taken. taken ≡ false → IsDenied (events.Write Client stream bytes.now) self.old self.new) }
    {
        let told = self.take(&Event::Write(Side::Client, stream, bytes))?;
        let Told::Call(answer) = told else {
            return Ok(false);
        };
        Ok(answer.is_ok())
    }

    /// What was read so far of a stream of the client.
    pub(crate) fn read_on(&self, stream: u8) -> &[u8]
        ensures { result.now ≡ read_on self.now.world stream }
    {
        match self.world.trace().ledger(Side::Client, stream) {
            Some(ledger) => ledger.read(),
            None => &[],
        }
    }

    /// Whether the server has read the end of a stream of the client: it has then read all that was written.
    pub(crate) fn has_ended(&self, stream: u8) -> bool
        ensures told { result ≡ has_ended self.now.world stream }
        ensures whole { result ≡ true → read_on self.now.world stream ≡ written_on self.now.world stream }
        ensures run { Plays self.now.asked self.now.events self.now.world }
    {
        match self.world.trace().ledger(Side::Client, stream) {
            Some(ledger) => ledger.saw_end(),
            None => false,
        }
    }

    /// Whether the connection failed at an end.
    pub(crate) fn has_failed(&self) -> bool
        ensures failed { result ≡ true ↔ HasFailed self.now.world }
        ensures run { Plays self.now.asked self.now.events self.now.world }
    {
        self.world.is_failed(Side::Client) || self.world.is_failed(Side::Server)
    }
}
