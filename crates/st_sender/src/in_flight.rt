//! The packets in flight, and how far each stream's data in them reach.

ghost use Rattle.std.specs.Prelude.{◌≡◌, ◌<◌, ◌^◌};
ghost use Rattle.st_sender.specs.Flights.{end_of, highest_end, flying_end};
ghost use Rattle.st_sender.specs.Shown.{shown, kept};
ghost use Rattle.st_sender.specs.InFlight.{AreEnds, AreSmall, IsRaised};

use crate::load::{Flight, SentFrame, flights_end};
use std::alloc::Allocator;
use std::marker::Model;

/// Raises the place of a frame's stream to the end of its data.
fn raise(ends: &mut [u128; 65], frame: SentFrame)
    ensures raised { IsRaised ends.old ends.new (λ k. end_of k (shown frame)) }
    ensures small { AreSmall ends.old → AreSmall ends.new }
{
    if let SentFrame::Data { stream, .. } = frame {
        if stream < 65 {
            let place = stream as usize;
            ends[place] = ends[place].max(frame.end(stream));
        }
    }
}

/// Raises the place of each stream to the highest end of its data in these frames.
fn raise_all(ends: &mut [u128; 65], frames: &[SentFrame])
    ensures raised { IsRaised ends.old ends.new (λ k. highest_end k (kept frames.now)) }
    ensures small { AreSmall ends.old → AreSmall ends.new }
{
    for frame in frames {
        raise(ends, *frame);
    }
}

impl<A: Allocator + Copy> Flight<A> {
    /// Raises the place of each stream to the end of its data in this packet.
    fn raise(&self, ends: &mut [u128; 65])
        ensures raised { IsRaised ends.old ends.new (λ k. highest_end k self.now.frames) }
        ensures small { AreSmall ends.old → AreSmall ends.new }
    {
        raise_all(ends, &self.frames);
    }
}

/// The highest end of each stream's data in these packets, by the stream's number. Each packet is visited once.
pub fn ends_of<A: Allocator + Copy>(flights: &[Flight<A>]) -> [u128; 65]
    ensures { AreEnds flights.now result }
{
    let mut ends = [0; 65];
    for flight in flights {
        flight.raise(&mut ends);
    }
    ends
}

/// The packets in flight, with the highest end of each stream's data in them.
#[derive(Drop)]
pub struct InFlight<'f, A: Allocator + Copy> {
    flights: &'f [Flight<A>],
    ends: [u128; 65],
}

impl<'f, A: Allocator + Copy> Model for InFlight<'f, A> {
    ghost use Rattle.std.specs.Prelude.{List};
    ghost use Rattle.st_sender.specs.Sending as sending;
    ghost use Rattle.st_sender.specs.InFlight.{AreEnds};

    ghost Value = { List sending.Flight };

    ghost view = { λ a. a.flights.now };

    ghost invariant = { λ a. AreEnds a.flights.now a.ends };
}

impl<'f, A: Allocator + Copy> InFlight<'f, A> {
    /// The same packets, of which these are the ends.
    pub fn with(flights: &'f [Flight<A>], ends: &[u128; 65]) -> InFlight<'f, A>
        requires { AreEnds flights.now ends.now }
        ensures { result ≡ flights.now }
    {
        InFlight {
            flights,
            ends: *ends,
        }
    }

    /// The highest end of the stream's data: 0 if it has none in flight.
    pub fn end(&self, number: u8) -> u128
        ensures end { result ≡ flying_end number self.now }
        ensures small { result < 2 ^ 65 }
    {
        if number < 65 {
            self.ends[number as usize]
        } else {
            flights_end(self.flights, number)
        }
    }
}
