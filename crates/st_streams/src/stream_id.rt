//! The number of a stream.

ghost use Rattle.std.specs.Prelude.{◌≡◌, MatchOption};
ghost use Rattle.st_streams.specs.Numbers.{IsStreamNumber};

use std::marker::Model;

/// The number of a stream of a connection (RFC 0029, sections 4.1 and 5.3): from 1 to 64, odd if the client opens the
/// stream, and even if the server does. RFC 0029 allows greater numbers; 64 is the limit of this profile.
#[derive(Clone, Copy, Debug, PartialEq, Eq, PartialOrd, Ord, Hash)]
pub struct StreamId {
    number: u8,
}

impl Model for StreamId {
    ghost use Rattle.std.specs.Prelude.{ℕ};
    ghost use Rattle.st_streams.specs.Numbers.{IsStreamNumber};

    ghost Value = { ℕ };

    ghost view = { λ s. s.number };

    ghost inverse = { λ n. record { number = n } };

    ghost invariant = { λ s. IsStreamNumber s.number };
}

impl StreamId {
    /// Stream 1, the first that a client opens.
    pub const FIRST: StreamId = StreamId { number: 1 };

    /// The stream of this number. `None` if it is 0 or greater than 64.
    pub fn new(number: u8) -> Option<StreamId>
        ensures { MatchOption result (¬ IsStreamNumber number) (λ stream. (stream ≡ number) × IsStreamNumber number) }
    {
        if number < 1 || number > 64 {
            return None;
        }
        Some(StreamId { number })
    }

    /// Its number, from 1 to 64.
    pub fn number(self) -> u8
        ensures number { result ≡ self }
        ensures bounds { IsStreamNumber result }
    {
        self.number
    }

    /// Its place in a table that has a place for each number from 0 to 64.
    pub fn place(self) -> usize
        ensures place { result ≡ self }
        ensures bounds { IsStreamNumber result }
    {
        usize::from(self.number)
    }
}
