//! The Blocked frames: a limit of the peer stops this end (RFC 0029, section 5.3).

ghost use Rattle.std.specs.Prelude.{◌≡◌, true, false, ◌<◌, ◌^◌, length, MatchOption};
ghost use Rattle.st_sender.specs.Due as due;
ghost use Rattle.st_sender.specs.Shown.{telling};
ghost use Rattle.st_sender.specs.ControlFrames.{IsBlockedAt, NoneBlocked, IsHeldAt, NoneHeld, IsHeld, NotHeld, IsDataNotice, IsMoneyNotice, IsStreamNotice, IsConnectionNotice};

use crate::bounds::Bounds;
use crate::in_flight::{InFlight, ends_of};
use crate::load::Flight;
use crate::notice::Notice;
use crate::payments::room_for;
use crate::sizes::notice_size;
use crate::stream::Stream;
use st_oer::Rate;
use std::alloc::Allocator;

/// Whether a Blocked frame was already fulfilled for this limit or a higher one. `highest` is the highest limit for
/// which one was.
pub fn was_blocked(highest: Option<u64>, limit: u64) -> bool
    ensures { result ≡ due.was_blocked highest limit }
{
    match highest {
        None => false,
        Some(highest) => limit <= highest,
    }
}

impl<A: Allocator + Copy> Stream<A> {
    /// Whether a queued byte lies beyond the connection's limit. `spare` is by how many bytes the sum of the streams'
    /// ends may still rise.
    pub fn is_held(&self, flights: &InFlight<'_, A>, number: u8, spare: u128) -> bool
        requires { spare < 2 ^ 64 }
        ensures yes { result ≡ true → IsHeld flights.now spare number self.now }
        ensures no { result ≡ false → NotHeld flights.now spare number self.now }
    {
        u128::from(self.bytes.past_due()) > self.sent_end(flights, number) + spare
    }

    /// The Blocked at its limit on offsets that is sent: a byte beyond it is due, and none was fulfilled for this limit.
    fn data_blocked(&self, number: u8, bounds: Bounds) -> Option<Notice>
        ensures { IsDataNotice bounds number self.now result }
    {
        let notice = Notice::StreamDataBlocked {
            stream: u64::from(number),
            max_offset: self.told,
        };
        if self.bytes.past_due() <= self.told
            || was_blocked(self.blocked, self.told)
            || notice_size(bounds.sequence, notice) > bounds.room
        {
            return None;
        }
        Some(notice)
    }

    /// The Blocked at the peer's receive max that goes: more money is due than it has room for, and none was fulfilled
    /// for it.
    fn money_blocked(
        &self,
        flights: &[Flight<A>],
        number: u8,
        least: Rate,
        bounds: Bounds,
    ) -> Option<Notice>
        ensures { IsMoneyNotice least flights.now bounds number self.now result }
    {
        let Some((receive_max, received)) = self.advertised_money else {
            return None;
        };
        let notice = Notice::StreamMoneyBlocked {
            stream: u64::from(number),
            receive_max,
            total: self.fulfilled,
        };
        let left = receive_max.saturating_sub(received);
        if room_for(least, self.open_money(flights, number)) <= u128::from(left)
            || was_blocked(self.blocked_money, receive_max)
            || notice_size(bounds.sequence, notice) > bounds.room
        {
            return None;
        }
        Some(notice)
    }

    /// The Blocked frame of the stream that can be sent: of its offsets first, else of its receive max. `None` if
    /// there is none.
    pub fn blocked(
        &self,
        flights: &[Flight<A>],
        number: u8,
        least: Rate,
        bounds: Bounds,
    ) -> Option<Notice>
        ensures { IsStreamNotice flights.now least bounds number self.now result }
    {
        match self.data_blocked(number, bounds) {
            Some(notice) => Some(notice),
            None => self.money_blocked(flights, number, least, bounds),
        }
    }
}

/// The Blocked frame of the first stream, by number, that is stopped by a limit of the peer. `None` if no stream has
/// one to send. `streams` has 65 places, one for each number from 0 to 64.
pub fn first_blocked<A: Allocator + Copy>(
    streams: &[Option<Stream<A>>],
    flights: &[Flight<A>],
    least: Rate,
    bounds: Bounds,
) -> Option<Notice>
    requires { length streams.now ≡ 65 }
    ensures { MatchOption result (NoneBlocked streams.now flights.now least bounds 65) (λ n. IsBlockedAt streams.now flights.now least bounds (telling n)) }
{
    for number in 0..65_u8 {
        if let Some(stream) = &streams[number as usize] {
            if let Some(notice) = stream.blocked(flights, number, least, bounds) {
                return Some(notice);
            }
        }
    }
    None
}

/// Whether bytes of a stream wait beyond how far the sum of the ends may rise.
fn is_any_held<A: Allocator + Copy>(
    streams: &[Option<Stream<A>>],
    flights: &InFlight<'_, A>,
    spare: u128,
) -> bool
    requires small { spare < 2 ^ 64 }
    requires streams { length streams.now ≡ 65 }
    ensures yes { result ≡ true → IsHeldAt streams.now flights.now spare }
    ensures no { result ≡ false → NoneHeld streams.now flights.now spare 65 }
{
    for number in 0..65_u8 {
        if let Some(stream) = &streams[number as usize] {
            if stream.is_held(flights, number, spare) {
                return true;
            }
        }
    }
    false
}

/// The ConnectionDataBlocked frame, if bytes wait beyond `told`, the peer's limit on the sum of the streams' ends.
/// `None` if no bytes wait beyond it, if one was fulfilled for this limit, or if the packet has no room.
/// `streams` has 65 places, one for each number from 0 to 64.
pub fn connection_blocked<A: Allocator + Copy>(
    streams: &[Option<Stream<A>>],
    flights: &[Flight<A>],
    told: u64,
    highest: Option<u64>,
    bounds: Bounds,
) -> Option<Notice>
    requires small { bounds.spare < 2 ^ 64 }
    requires streams { length streams.now ≡ 65 }
    ensures { IsConnectionNotice streams.now flights.now told highest bounds result }
{
    let notice = Notice::ConnectionDataBlocked { max_offset: told };
    if was_blocked(highest, told) {
        return None;
    }
    if notice_size(bounds.sequence, notice) > bounds.room {
        return None;
    }
    let ends = ends_of(flights);
    if is_any_held(streams, &InFlight::with(flights, &ends), bounds.spare) {
        Some(notice)
    } else {
        None
    }
}
