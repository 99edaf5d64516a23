//! The split of a packet's amount over its streams.

ghost use Rattle.std.specs.Prelude.{◌≡◌, ◌<◌, ◌≤◌, ◌+◌, ◌*◌, ◌/◌, ◌^◌, ℕ, List, map, sum, length, slice_index, MatchOption, None, false};
ghost use Rattle.st_frames.specs.Frames.{frame_of};
ghost use Rattle.st_frames.specs.Seen.{seen};
ghost use Rattle.st_frames.specs.Told.{shares};
ghost use Rattle.st_streams.specs.Slots.{slot};
ghost use Rattle.st_receiver.specs.Streams.{incoming_at, credited_of};
ghost use Rattle.st_receiver.specs.Data as taken;
ghost use Rattle.st_receiver.specs.Money as money;
ghost use Rattle.st_receiver.specs.Inside as inside;
ghost use Rattle.st_receiver.specs.Standing.{Keeps};

use crate::asking::credited_of;
use crate::decide::sum_of;
use crate::incoming::Incoming;
use crate::intake::Intake;
use crate::reason::Reason;
use st_frames::{Frame, Frames};
use std::alloc::Allocator;

/// The shares that a frame gives, and the place of their stream.
fn shares_of(frame: Frame<'_>) -> Option<(usize, u64)>
    ensures within { inside.below_end result }
    ensures shares { (ms : List ℕ) → length ms ≡ 65 → inside.plus ms result ≡ inside.with_shares ms (seen frame.entry) }
{
    match frame {
        Frame::StreamMoney { stream, shares } => {
            if stream >= 65 {
                return None;
            }
            Some((stream as usize, shares))
        }
        _ => None,
    }
}

/// The shares of each stream, by number, if their sum is below 2^64.
fn shares_in(mut frames: Frames<'_>) -> Option<[u64; 65]>
    ensures { MatchOption result (2 ^ 64 ≤ sum (shares (map frame_of frames.entry))) (λ ms. (ms ≡ shares (map frame_of frames.entry)) × (sum ms < 2 ^ 64)) }
{
    let mut all = [0; 65];
    let mut total: u64 = 0;
    while let Some((_, frame)) = frames.next() {
        if let Some((k, shares)) = shares_of(frame) {
            let Some(more) = total.checked_add(shares) else {
                return None;
            };
            all[k] += shares;
            total = more;
        }
    }
    Some(all)
}

/// The part of one stream, rounded down.
fn part(amount: u64, shares: u64, all: u64) -> u64
    requires some { 0 < all }
    requires among { shares ≤ all }
    ensures { result ≡ amount * shares / all }
{
    (u128::from(amount) * u128::from(shares) / u128::from(all)) as u64
}

/// All parts, rounded down.
fn rounded_parts(amount: u64, shares: &[u64; 65], all: u64) -> [u64; 65]
    requires some { 0 < all }
    requires all { all ≡ sum shares.now }
    ensures { result ≡ money.rounded amount all shares.now }
{
    let mut parts = [0; 65];
    for k in 0..65 {
        parts[k] = part(amount, shares[k], all);
    }
    parts
}

/// The place of the first stream that has shares, or 65.
fn first_with_shares(shares: &[u64; 65]) -> usize
    ensures within { result ≤ 65 }
    ensures none { (j : ℕ) → j < result → slice_index shares.now j ≡ 0 }
    ensures some { result < 65 → 0 < slice_index shares.now result }
{
    for k in 0..65 {
        if shares[k] > 0 {
            return k;
        }
    }
    65
}

/// The parts of an amount: what is left over by the rounding goes to the first stream that has shares.
fn parts_of(amount: u64, shares: &[u64; 65], all: u64) -> [u64; 65]
    requires some { 0 < all }
    requires all { all ≡ sum shares.now }
    ensures { result ≡ money.parts amount shares.now }
{
    let mut parts = rounded_parts(amount, shares, all);
    let rest = amount - sum_of(&parts) as u64;
    let first = first_with_shares(shares);
    if first < 65 {
        parts[first] += rest;
    }
    parts
}

/// The parts of a packet's amount, by the streams' numbers.
fn parts_in(frames: Frames<'_>, amount: u64) -> [u64; 65]
    requires fits { sum (shares (map frame_of frames)) < 2 ^ 64 }
    requires some { 0 < sum (shares (map frame_of frames)) }
    ensures { result ≡ money.parts amount (shares (map frame_of frames.entry)) }
{
    let shares = shares_in(frames).unwrap();
    parts_of(amount, &shares, sum_of(&shares) as u64)
}

/// What each stream was credited, by number.
pub(crate) fn all_credited<A: Allocator + Copy>(slots: &Vec<Option<Incoming<A>>, A>) -> [u64; 65]
    requires { length slots.now.items ≡ 65 }
    ensures { result ≡ map credited_of slots.now.items }
{
    let mut totals = [0; 65];
    for k in 0..65 {
        totals[k] = credited_of(&slots[k]);
    }
    totals
}

/// A stream with a part of an amount.
fn credited<A: Allocator + Copy>(slot: Option<Incoming<A>>, part: u64) -> Option<Incoming<A>>
    requires { money.is_over_max slot part ≡ false }
    ensures { result ≡ money.with_credit slot part }
{
    match slot {
        Some(mut incoming) => {
            incoming.credit(part);
            Some(incoming)
        }
        None => None,
    }
}

/// Credits each stream with its part.
fn credit_all<A: Allocator + Copy>(slots: &mut Vec<Option<Incoming<A>>, A>, parts: &[u64; 65])
    requires size { length slots.old.items ≡ 65 }
    requires fits { money.any_over_max slots.old.items parts.now ≡ false }
    ensures { slots.new.items ≡ money.with_credits slots.old.items parts.now }
{
    for k in 0..65 {
        let slot = slots[k].take();
        slots[k] = credited(slot, parts[k]);
    }
}

impl<A: Allocator + Copy> Intake<A> {
    /// What a stream may receive in all, and what it was credited, as it is or as it would open.
    fn money_at(&self, k: usize) -> (u64, u64)
        requires { k < 65 }
        ensures receive_max { result.0 ≡ (incoming_at self.now.state k).receive_max }
        ensures credited { result.1 ≡ (incoming_at self.now.state k).credited }
    {
        match &self.slots[k] {
            Some(incoming) => (incoming.receive_max(), incoming.credited()),
            None => (self.kept[k], 0),
        }
    }

    /// Whether a part is past what its stream may receive.
    fn is_over(&self, k: usize, part: u64) -> bool
        requires { k < 65 }
        ensures { result ≡ inside.over_at self.now.state k part }
    {
        let (receive_max, credited) = self.money_at(k);
        u128::from(receive_max) < u128::from(credited) + u128::from(part)
    }

    /// Whether any part is.
    fn any_over(&self, parts: &[u64; 65]) -> bool
        ensures { inside.IsOverAt self.now.state parts.now result }
    {
        for k in 0..65 {
            if self.is_over(k, parts[k]) {
                return true;
            }
        }
        false
    }

    /// Why the money of a packet is refused, if its frames are not.
    pub(crate) fn money_fault(&self, frames: Frames<'_>, amount: u64) -> Option<Reason>
        requires { taken.frames_fault self.now.state (map frame_of frames) ≡ None }
        ensures { result ≡ money.money_fault (taken.after_frames self.now.state (map frame_of frames.entry)) amount (map frame_of frames.entry) }
    {
        let _ = &self.alloc;
        let Some(shares) = shares_in(frames) else {
            return Some(Reason::NoShares);
        };
        if amount == 0 {
            return None;
        }
        let all = sum_of(&shares) as u64;
        if all == 0 {
            return Some(Reason::NoShares);
        }
        if self.any_over(&parts_of(amount, &shares, all)) {
            return Some(Reason::OverReceiveMax);
        }
        if u128::from(self.credit) + u128::from(amount) >= 1 << 63 {
            return Some(Reason::OverReceiveMax);
        }
        None
    }

    /// A packet's amount is credited to its streams.
    pub(crate) fn take_money(&mut self, frames: Frames<'_>, amount: u64)
        requires { money.money_fault self.old.state amount (map frame_of frames) ≡ None }
        ensures state { self.new.state ≡ money.after_money self.old.state amount (map frame_of frames.entry) }
        ensures keeps { Keeps self.old self.new }
    {
        if amount == 0 {
            return;
        }
        credit_all(&mut self.slots, &parts_in(frames, amount));
        self.credit += amount;
    }

    /// What a stream is credited in all, with a part more.
    fn total_with(&self, k: usize, part: u64) -> u64
        requires within { k < 65 }
        requires fits { inside.over_at self.now.state k part ≡ false }
        ensures { result ≡ (incoming_at self.now.state k).credited + part }
    {
        let (_, credited) = self.money_at(k);
        credited + part
    }

    /// The total of each stream, by number, once these parts are credited.
    fn totals_with(&self, parts: &[u64; 65]) -> [u64; 65]
        requires { inside.IsOverAt self.now.state parts.now false }
        ensures { (k : ℕ) → k < 65 → slice_index result k ≡ (incoming_at self.now.state k).credited + slice_index parts.now k }
    {
        let mut totals = [0; 65];
        for k in 0..65 {
            totals[k] = self.total_with(k, parts[k]);
        }
        totals
    }

    /// What each stream will be credited in all, once a packet that breaks no rule took effect.
    pub(crate) fn totals_after(&self, frames: Frames<'_>, amount: u64) -> [u64; 65]
        requires lawful { taken.frames_fault self.now.state (map frame_of frames) ≡ None }
        requires pays { money.money_fault (taken.after_frames self.now.state (map frame_of frames)) amount (map frame_of frames) ≡ None }
        ensures { (k : ℕ) → k < 65 → slice_index result k ≡ inside.credited_after self.now.state amount (map frame_of frames.entry) k }
    {
        if amount == 0 {
            return all_credited(&self.slots);
        }
        self.totals_with(&parts_in(frames, amount))
    }
}
