//! What arrives over a link, at an end or at a hop.

ghost use Rattle.std.specs.Prelude.{◌≡◌, ◌+◌, ◌<◌, IfOk, OnErr, length};
ghost use Rattle.st_links.specs.Outcomes.{outcome_seen};
ghost use Rattle.st_world_parts.specs.Sides.{Client, Server};
ghost use Rattle.st_world_parts.specs.Seen.{way_seen, told_seen};
ghost use Rattle.st_world.specs.Places.{LinkSends, LinkMet, LinkBack, HopsMet, HopsBack};

use st_ilp::Moment;
use st_links::Outcome;
use st_world_parts::{
    Link, Node, Party, SentPrepare, Told, Way, arrive_at, arrive_at_end, send_from, settle_at,
    settle_at_end,
};
use std::alloc::{AllocError, Allocator};

/// An end sends on a link.
pub(crate) fn send_on<A: Allocator + Copy>(
    party: &mut Party<A>,
    links: &mut [Link<A>],
    link: usize,
    way: Way,
    iv: [u8; 12],
    now: Moment,
) -> Result<Told<A>, AllocError>
    requires { link < length links.old }
    ensures sent { IfOk result (λ told. LinkSends link (way_seen way) iv now (told_seen told) party.old party.new links.old links.new) }
    ensures same_party { OnErr result (party.new ≡ party.old) }
    ensures same_links { OnErr result (links.new ≡ links.old) }
{
    let over = &mut links[link];
    match way {
        Way::ToServer => send_from(party, &mut over.client, iv, now),
        Way::ToClient => send_from(party, &mut over.server, iv, now),
    }
}

/// A Prepare of a link comes to an end.
pub(crate) fn meet_end<A: Allocator + Copy>(
    party: &mut Party<A>,
    links: &mut [Link<A>],
    link: usize,
    way: Way,
    which: usize,
    bytes: &[u8],
    now: Moment,
) -> Result<Told<A>, AllocError>
    requires { link < length links.old }
    ensures met { IfOk result (λ told. LinkMet link (way_seen way) which bytes.now now (told_seen told) party.old party.new links.old links.new) }
    ensures same_party { OnErr result (party.new ≡ party.old) }
    ensures same_links { OnErr result (links.new ≡ links.old) }
{
    let over = &mut links[link];
    match way {
        Way::ToServer => arrive_at_end(party, &mut over.client, which, bytes, now),
        Way::ToClient => arrive_at_end(party, &mut over.server, which, bytes, now),
    }
}

/// The outcome of a Prepare reaches the end that sent it over a link. Does not allocate.
pub(crate) fn back_to_end<A: Allocator + Copy>(
    party: &mut Party<A>,
    links: &mut [Link<A>],
    link: usize,
    way: Way,
    put: &SentPrepare<A>,
    which: usize,
    outcome: Outcome<A>,
) -> Told<A>
    requires { link < length links.old }
    ensures { LinkBack link (way_seen way) put.now which (outcome_seen outcome) (told_seen result) party.old party.new links.old links.new }
{
    let over = &mut links[link];
    match way {
        Way::ToServer => settle_at_end(party, &mut over.client, put, which, outcome),
        Way::ToClient => settle_at_end(party, &mut over.server, put, which, outcome),
    }
}

/// A Prepare for the server comes to a hop.
pub(crate) fn meet_hop_up<A: Allocator + Copy>(
    node: &mut Node<A>,
    links: &mut [Link<A>],
    link: usize,
    which: usize,
    bytes: &[u8],
    now: Moment,
) -> Result<Told<A>, AllocError>
    requires { link + 1 < length links.old }
    ensures met { IfOk result (λ told. HopsMet link (link + 1) Client which bytes.now now (told_seen told) node.old node.new links.old links.new) }
    ensures same_node { OnErr result (node.new ≡ node.old) }
    ensures same_links { OnErr result (links.new ≡ links.old) }
{
    let (front, rest) = links.split_at_mut(link + 1);
    let over = &mut front[link];
    let onto = &mut rest[0];
    arrive_at(
        node,
        &mut onto.client,
        &mut over.client,
        Way::ToServer,
        which,
        bytes,
        now,
    )
}

/// A Prepare for the client comes to a hop, over the link after this one.
pub(crate) fn meet_hop_down<A: Allocator + Copy>(
    node: &mut Node<A>,
    links: &mut [Link<A>],
    link: usize,
    which: usize,
    bytes: &[u8],
    now: Moment,
) -> Result<Told<A>, AllocError>
    requires { link + 1 < length links.old }
    ensures met { IfOk result (λ told. HopsMet (link + 1) link Server which bytes.now now (told_seen told) node.old node.new links.old links.new) }
    ensures same_node { OnErr result (node.new ≡ node.old) }
    ensures same_links { OnErr result (links.new ≡ links.old) }
{
    let (front, rest) = links.split_at_mut(link + 1);
    let onto = &mut front[link];
    let over = &mut rest[0];
    arrive_at(
        node,
        &mut onto.server,
        &mut over.server,
        Way::ToClient,
        which,
        bytes,
        now,
    )
}

/// An outcome arrives at the hop that put a Prepare for the server on the link after this one.
pub(crate) fn back_to_hop_up<A: Allocator + Copy>(
    node: &mut Node<A>,
    links: &mut [Link<A>],
    link: usize,
    put: &SentPrepare<A>,
    which: usize,
    outcome: Outcome<A>,
    now: Moment,
) -> Result<Told<A>, AllocError>
    requires { link + 1 < length links.old }
    ensures back { IfOk result (λ told. HopsBack (link + 1) link Client put.now which (outcome_seen outcome) now
        (told_seen told) node.old node.new links.old links.new) }
    ensures same_node { OnErr result (node.new ≡ node.old) }
    ensures same_links { OnErr result (links.new ≡ links.old) }
{
    let (front, rest) = links.split_at_mut(link + 1);
    let back = &mut front[link];
    let over = &mut rest[0];
    settle_at(
        node,
        &mut over.client,
        &mut back.client,
        put,
        which,
        outcome,
        now,
    )
}

/// An outcome arrives at the hop that put a Prepare for the client on this link.
pub(crate) fn back_to_hop_down<A: Allocator + Copy>(
    node: &mut Node<A>,
    links: &mut [Link<A>],
    link: usize,
    put: &SentPrepare<A>,
    which: usize,
    outcome: Outcome<A>,
    now: Moment,
) -> Result<Told<A>, AllocError>
    requires { link + 1 < length links.old }
    ensures back { IfOk result (λ told. HopsBack link (link + 1) Server put.now which (outcome_seen outcome) now
        (told_seen told) node.old node.new links.old links.new) }
    ensures same_node { OnErr result (node.new ≡ node.old) }
    ensures same_links { OnErr result (links.new ≡ links.old) }
{
    let (front, rest) = links.split_at_mut(link + 1);
    let over = &mut front[link];
    let back = &mut rest[0];
    settle_at(
        node,
        &mut over.server,
        &mut back.server,
        put,
        which,
        outcome,
        now,
    )
}
