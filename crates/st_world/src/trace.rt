//! The result of a run: both ends and the hops, what was written and read, and which Prepares were answered.

ghost use Rattle.std.specs.Prelude.{◌≡◌, ◌≢◌, ◌≤◌, ◌<◌, ◌+◌, ◌||◌, false, length, OnErr, IfOk};
ghost use Rattle.st_links.specs.Outcomes.{outcome_seen};
ghost use Rattle.st_world_parts.specs.Sides as sides;
ghost use Rattle.st_world_parts.specs.State.{AtEnd, AtHop};
ghost use Rattle.st_world_parts.specs.Events as events;
ghost use Rattle.st_world.specs.Steps.{Meets};
ghost use Rattle.st_world_parts.specs.Seen.{side_seen, way_seen, told_seen};
ghost use Rattle.st_world.specs.Places.{Links};
ghost use Rattle.st_world.specs.Left.{in_world, lacks, ComesOver, MeetsOver, ReturnsOver};

use crate::links::{
    back_to_end, back_to_hop_down, back_to_hop_up, meet_end, meet_hop_down, meet_hop_up, send_on,
};
use st_ilp::Moment;
use st_links::Outcome;
use st_world_parts::{
    Link, Node, Party, SentPrepare, Side, StreamLogs, Told, Way, abort_at, close_at, offer_at,
    open_at, raise_at, read_at, write_at,
};
use std::alloc::{AllocError, Allocator};
use std::marker::Model;

/// The result of a run: both ends and the hops, each with the Prepares that it answered, what was written and read of
/// each stream, and whether some call ran out of memory.
pub struct Trace<A: Allocator + Copy> {
    pub(crate) client: Party<A>,
    pub(crate) server: Party<A>,
    pub(crate) nodes: Vec<Node<A>, A>,
    /// Of the streams as the client writes them.
    pub(crate) from_client: StreamLogs<A>,
    /// And as the server does.
    pub(crate) from_server: StreamLogs<A>,
    pub(crate) refused: bool,
    pub(crate) alloc: A,
}

// It is written out, so that a caller does not prove again how each part is dropped.
impl<A: Allocator + Copy> Drop for Trace<A> {
    fn drop(self) {
        let Trace {
            client: _,
            server: _,
            nodes: _,
            from_client: _,
            from_server: _,
            refused: _,
            alloc: _,
        } = self;
    }
}

impl<A: Allocator + Copy> Model for Trace<A> {
    ghost use Rattle.std.specs.Coded.{codes};
    ghost use Rattle.std.specs.FinMap as map;
    ghost use Rattle.st_world.specs.Left.{Left};

    ghost Value = { Left };

    ghost coded = { Prim.hlevel (codes, map.code) };

    ghost view = { λ a. record { ends = record { client = a.client; server = a.server }; nodes = a.nodes.items; ledgers = record { client = a.from_client; server = a.from_server }; refused = a.refused } };
}

/// Notes whether a call ran out of memory.
fn note<A: Allocator + Copy>(told: Told<A>, refused: &mut bool) -> Told<A>
    ensures told { told_seen result ≡ told_seen told }
    ensures refused { refused.new ≡ (refused.old || lacks (told_seen told)) }
{
    if matches!(told, Told::NoMemory) {
        *refused = true;
    }
    told
}

impl<A: Allocator + Copy> Trace<A> {
    /// An end opens its next stream.
    pub(crate) fn open(&mut self, side: Side) -> Told<A>
        ensures met { (ls : Links) → Meets (in_world self.old ls) (events.OpenStream (side_seen side)) (told_seen result) (in_world self.new ls) }
        ensures nodes { length self.new.nodes ≡ length self.old.nodes }
    {
        match side {
            Side::Client => {
                let told = open_at(&mut self.client);
                note(told, &mut self.refused)
            }
            Side::Server => {
                let told = open_at(&mut self.server);
                note(told, &mut self.refused)
            }
        }
    }

    /// An end accepts bytes to be sent.
    pub(crate) fn write(
        &mut self,
        side: Side,
        stream: u8,
        bytes: &[u8],
    ) -> Result<Told<A>, AllocError>
        ensures met { IfOk result (λ told. (ls : Links) → MeetsOver self.old ls (events.Write (side_seen side) stream bytes.now) (told_seen told) self.new ls) }
        ensures unchanged { OnErr result (self.new ≡ self.old) }
        ensures nodes { length self.new.nodes ≡ length self.old.nodes }
    {
        match side {
            Side::Client => {
                let told = write_at(&mut self.client, &mut self.from_client, stream, bytes)?;
                Ok(note(told, &mut self.refused))
            }
            Side::Server => {
                let told = write_at(&mut self.server, &mut self.from_server, stream, bytes)?;
                Ok(note(told, &mut self.refused))
            }
        }
    }

    /// Bytes are read at an end.
    pub(crate) fn read(&mut self, side: Side, stream: u8, max: usize) -> Result<Told<A>, AllocError>
        requires { 1 ≤ max }
        ensures met { IfOk result (λ told. (ls : Links) → MeetsOver self.old ls (events.Read (side_seen side) stream max) (told_seen told) self.new ls) }
        ensures unchanged { OnErr result (self.new ≡ self.old) }
        ensures nodes { length self.new.nodes ≡ length self.old.nodes }
    {
        match side {
            Side::Client => {
                let told = read_at(&mut self.client, &mut self.from_server, stream, max)?;
                Ok(note(told, &mut self.refused))
            }
            Side::Server => {
                let told = read_at(&mut self.server, &mut self.from_client, stream, max)?;
                Ok(note(told, &mut self.refused))
            }
        }
    }

    /// An end closes a stream cleanly.
    pub(crate) fn close(&mut self, side: Side, stream: u8) -> Told<A>
        ensures met { (ls : Links) → Meets (in_world self.old ls) (events.Close (side_seen side) stream) (told_seen result) (in_world self.new ls) }
        ensures nodes { length self.new.nodes ≡ length self.old.nodes }
        ensures memory { lacks (told_seen result) ≡ false }
    {
        match side {
            Side::Client => {
                let told = close_at(&mut self.client, &mut self.from_client, stream);
                note(told, &mut self.refused)
            }
            Side::Server => {
                let told = close_at(&mut self.server, &mut self.from_server, stream);
                note(told, &mut self.refused)
            }
        }
    }

    /// An end aborts a stream.
    pub(crate) fn abort(&mut self, side: Side, stream: u8, code: u8) -> Told<A>
        requires { code ≢ 1 }
        ensures met { (ls : Links) → Meets (in_world self.old ls) (events.Abort (side_seen side) stream code) (told_seen result) (in_world self.new ls) }
        ensures nodes { length self.new.nodes ≡ length self.old.nodes }
        ensures memory { lacks (told_seen result) ≡ false }
    {
        match side {
            Side::Client => {
                let told = abort_at(&mut self.client, &mut self.from_client, stream, code);
                note(told, &mut self.refused)
            }
            Side::Server => {
                let told = abort_at(&mut self.server, &mut self.from_server, stream, code);
                note(told, &mut self.refused)
            }
        }
    }

    /// An end offers money on a stream.
    pub(crate) fn offer(&mut self, side: Side, stream: u8, amount: u64) -> Told<A>
        ensures met { (ls : Links) → Meets (in_world self.old ls) (events.Offer (side_seen side) stream amount) (told_seen result) (in_world self.new ls) }
        ensures nodes { length self.new.nodes ≡ length self.old.nodes }
        ensures memory { lacks (told_seen result) ≡ false }
    {
        match side {
            Side::Client => {
                let told = offer_at(&mut self.client, &mut self.from_client, stream, amount);
                note(told, &mut self.refused)
            }
            Side::Server => {
                let told = offer_at(&mut self.server, &mut self.from_server, stream, amount);
                note(told, &mut self.refused)
            }
        }
    }

    /// An end lets a stream receive more.
    pub(crate) fn raise(&mut self, side: Side, stream: u8, amount: u64) -> Told<A>
        ensures met { (ls : Links) → Meets (in_world self.old ls) (events.ReceiveMax (side_seen side) stream amount) (told_seen result) (in_world self.new ls) }
        ensures nodes { length self.new.nodes ≡ length self.old.nodes }
        ensures memory { lacks (told_seen result) ≡ false }
    {
        match side {
            Side::Client => raise_at(&mut self.client, stream, amount),
            Side::Server => raise_at(&mut self.server, stream, amount),
        }
    }

    /// An end sends.
    pub(crate) fn send(
        &mut self,
        links: &mut [Link<A>],
        side: Side,
        iv: [u8; 12],
        now: Moment,
    ) -> Result<Told<A>, AllocError>
        requires { length links.old ≡ length self.old.nodes + 1 }
        ensures met { IfOk result (λ told. MeetsOver self.old links.old (events.Send (side_seen side) iv now) (told_seen told) self.new links.new) }
        ensures twelve { length iv ≡ 12 }
        ensures same_self { OnErr result (self.new ≡ self.old) }
        ensures same_links { OnErr result (links.new ≡ links.old) }
        ensures nodes { length self.new.nodes ≡ length self.old.nodes }
    {
        match side {
            Side::Client => {
                let told = send_on(&mut self.client, links, 0, Way::ToServer, iv, now)?;
                Ok(note(told, &mut self.refused))
            }
            Side::Server => {
                let hops = self.nodes.len();
                let told = send_on(&mut self.server, links, hops, Way::ToClient, iv, now)?;
                Ok(note(told, &mut self.refused))
            }
        }
    }

    /// A hop crashes, and is started again with its books.
    pub(crate) fn crash(&mut self, hop: usize) -> Told<A>
        ensures met { (ls : Links) → Meets (in_world self.old ls) (events.Crash hop) (told_seen result) (in_world self.new ls) }
        ensures nodes { length self.new.nodes ≡ length self.old.nodes }
    {
        if hop >= self.hops() {
            return Told::Nothing;
        }
        let node = &mut self.nodes[hop];
        node.crash();
        Told::Nothing
    }

    /// A Prepare for the server comes to it.
    pub(crate) fn arrive_server(
        &mut self,
        links: &mut [Link<A>],
        link: usize,
        which: usize,
        put: &SentPrepare<A>,
        now: Moment,
    ) -> Result<Told<A>, AllocError>
        requires { link < length links.old }
        ensures met { IfOk result (λ told. ComesOver self.old links.old link sides.Client which now put.now
            (AtEnd sides.Server) (told_seen told) self.new links.new) }
        ensures same_self { OnErr result (self.new ≡ self.old) }
        ensures same_links { OnErr result (links.new ≡ links.old) }
        ensures nodes { length self.new.nodes ≡ length self.old.nodes }
    {
        let server = &mut self.server;
        let told = meet_end(server, links, link, Way::ToServer, which, put.bytes(), now)?;
        Ok(note(told, &mut self.refused))
    }

    /// A Prepare for the client comes to it.
    pub(crate) fn arrive_client(
        &mut self,
        links: &mut [Link<A>],
        link: usize,
        which: usize,
        put: &SentPrepare<A>,
        now: Moment,
    ) -> Result<Told<A>, AllocError>
        requires { link < length links.old }
        ensures met { IfOk result (λ told. ComesOver self.old links.old link sides.Server which now put.now
            (AtEnd sides.Client) (told_seen told) self.new links.new) }
        ensures same_self { OnErr result (self.new ≡ self.old) }
        ensures same_links { OnErr result (links.new ≡ links.old) }
        ensures nodes { length self.new.nodes ≡ length self.old.nodes }
    {
        let client = &mut self.client;
        let told = meet_end(client, links, link, Way::ToClient, which, put.bytes(), now)?;
        Ok(note(told, &mut self.refused))
    }

    /// A Prepare for the server comes to the hop after its link.
    pub(crate) fn arrive_up(
        &mut self,
        links: &mut [Link<A>],
        link: usize,
        which: usize,
        put: &SentPrepare<A>,
        now: Moment,
    ) -> Result<Told<A>, AllocError>
        requires hop { link < length self.old.nodes }
        requires links { length links.old ≡ length self.old.nodes + 1 }
        ensures met { IfOk result (λ told. ComesOver self.old links.old link sides.Client which now put.now (AtHop link) (told_seen told) self.new links.new) }
        ensures same_self { OnErr result (self.new ≡ self.old) }
        ensures same_links { OnErr result (links.new ≡ links.old) }
        ensures nodes { length self.new.nodes ≡ length self.old.nodes }
    {
        let node = &mut self.nodes[link];
        let told = meet_hop_up(node, links, link, which, put.bytes(), now)?;
        Ok(note(told, &mut self.refused))
    }

    /// A Prepare for the client comes to the hop before its link.
    pub(crate) fn arrive_down(
        &mut self,
        links: &mut [Link<A>],
        hop: usize,
        which: usize,
        put: &SentPrepare<A>,
        now: Moment,
    ) -> Result<Told<A>, AllocError>
        requires hop { hop < length self.old.nodes }
        requires links { length links.old ≡ length self.old.nodes + 1 }
        ensures met { IfOk result (λ told. ComesOver self.old links.old (hop + 1) sides.Server which now put.now
            (AtHop hop) (told_seen told) self.new links.new) }
        ensures same_self { OnErr result (self.new ≡ self.old) }
        ensures same_links { OnErr result (links.new ≡ links.old) }
        ensures nodes { length self.new.nodes ≡ length self.old.nodes }
    {
        let node = &mut self.nodes[hop];
        let told = meet_hop_down(node, links, hop, which, put.bytes(), now)?;
        Ok(note(told, &mut self.refused))
    }

    /// An outcome arrives at an end.
    pub(crate) fn back_end(
        &mut self,
        links: &mut [Link<A>],
        link: usize,
        way: Way,
        side: Side,
        which: usize,
        put: &SentPrepare<A>,
        outcome: Outcome<A>,
        now: Moment,
    ) -> Told<A>
        requires { link < length links.old }
        ensures met { ReturnsOver self.old links.old link (way_seen way) which now put.now
            (outcome_seen outcome) (AtEnd (side_seen side)) (told_seen result) self.new links.new }
        ensures nodes { length self.new.nodes ≡ length self.old.nodes }
    {
        let _at = now;
        match side {
            Side::Client => back_to_end(&mut self.client, links, link, way, put, which, outcome),
            Side::Server => back_to_end(&mut self.server, links, link, way, put, which, outcome),
        }
    }

    /// An outcome of a Prepare for the server arrives at the hop before its link.
    pub(crate) fn back_up(
        &mut self,
        links: &mut [Link<A>],
        hop: usize,
        which: usize,
        put: &SentPrepare<A>,
        outcome: Outcome<A>,
        now: Moment,
    ) -> Result<Told<A>, AllocError>
        requires hop { hop < length self.old.nodes }
        requires links { length links.old ≡ length self.old.nodes + 1 }
        ensures met { IfOk result (λ told. ReturnsOver self.old links.old (hop + 1) sides.Client which now put.now
            (outcome_seen outcome) (AtHop hop) (told_seen told) self.new links.new) }
        ensures same_self { OnErr result (self.new ≡ self.old) }
        ensures same_links { OnErr result (links.new ≡ links.old) }
        ensures nodes { length self.new.nodes ≡ length self.old.nodes }
    {
        let node = &mut self.nodes[hop];
        back_to_hop_up(node, links, hop, put, which, outcome, now)
    }

    /// An outcome of a Prepare for the client arrives at the hop after its link.
    pub(crate) fn back_down(
        &mut self,
        links: &mut [Link<A>],
        link: usize,
        which: usize,
        put: &SentPrepare<A>,
        outcome: Outcome<A>,
        now: Moment,
    ) -> Result<Told<A>, AllocError>
        requires hop { link < length self.old.nodes }
        requires links { length links.old ≡ length self.old.nodes + 1 }
        ensures met { IfOk result (λ told. ReturnsOver self.old links.old link sides.Server which now put.now
            (outcome_seen outcome) (AtHop link) (told_seen told) self.new links.new) }
        ensures same_self { OnErr result (self.new ≡ self.old) }
        ensures same_links { OnErr result (links.new ≡ links.old) }
        ensures nodes { length self.new.nodes ≡ length self.old.nodes }
    {
        let node = &mut self.nodes[link];
        back_to_hop_down(node, links, link, put, which, outcome, now)
    }
}
