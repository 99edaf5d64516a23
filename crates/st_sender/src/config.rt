//! The configuration of a connection.

ghost use Rattle.std.specs.Prelude.{◌≡◌, ◌<◌, ◌≤◌, MatchOption};
ghost use Rattle.st_oer.specs.Ratios.{IsRatio, ratio};
ghost use Rattle.st_sender.specs.Configs.{IsConfig, config, with_least};

use st_oer::Rate;
use std::marker::Model;

/// The greatest number of Prepares in flight at once: 64.
pub const MAX_IN_FLIGHT: usize = 64;
/// The greatest number of Prepares of a connection: 2^31 - 1. Both ends seal with one key, so RFC 0029 has a connection
/// closed by then.
pub const MAX_PACKETS: u64 = (1 << 31) - 1;
/// The greatest packet limit, in units of the sender's asset: 2^63 - 1.
pub const MAX_PACKET_LIMIT: u64 = (1 << 63) - 1;

/// The configuration of a connection's sending side: the number of Prepares, the packet limit and the prepare amount.
#[derive(Clone, Copy)]
pub struct EndConfig {
    in_flight: usize,
    packets: u64,
    packet_limit: u64,
    least: Rate,
}

impl Model for EndConfig {
    ghost use Rattle.st_sender.specs.Sending.{Config};
    ghost use Rattle.st_sender.specs.Configs.{IsConfig};

    ghost Value = { Config };

    ghost view = { λ c. record { in_flight = c.in_flight; packets = c.packets; packet_limit = c.packet_limit; least = c.least } };

    ghost inverse = { λ c. record { in_flight = c.in_flight; packets = c.packets; packet_limit = c.packet_limit; least = c.least } };

    ghost invariant = { λ c. IsConfig (record { in_flight = c.in_flight; packets = c.packets; packet_limit = c.packet_limit; least = c.least }) };
}

impl EndConfig {
    /// A configuration of `in_flight` Prepares in flight at once, 1 to `MAX_IN_FLIGHT`, and `packets` Prepares in all,
    /// 1 to `MAX_PACKETS`. `packet_limit` is the greatest amount of one Prepare at the start, in units of the sender's
    /// asset, 1 to `MAX_PACKET_LIMIT`. `None` exactly if one of them is outside its range. The prepare amount is the
    /// whole amount of a packet, unless `with_least` sets another rate.
    pub fn new(in_flight: usize, packets: u64, packet_limit: u64) -> Option<EndConfig>
        ensures { MatchOption result (¬ IsConfig (config in_flight packets packet_limit)) (λ c. (c ≡ config in_flight packets packet_limit) × IsConfig c) }
    {
        let least = Rate::new(1, 1)?;
        if in_flight == 0 || in_flight > MAX_IN_FLIGHT {
            return None;
        }
        if packets == 0 || packets > MAX_PACKETS {
            return None;
        }
        if packet_limit == 0 || packet_limit > MAX_PACKET_LIMIT {
            return None;
        }
        Some(EndConfig {
            in_flight,
            packets,
            packet_limit,
            least,
        })
    }

    /// Sets the rate by which a packet's prepare amount (RFC 0029, section 5.2) is computed: the packet's amount times
    /// `least`, rounded down, at most 2^64 - 1.
    pub fn with_least(self, least: Rate) -> EndConfig
        ensures { result ≡ with_least least self }
    {
        EndConfig {
            in_flight: self.in_flight,
            packets: self.packets,
            packet_limit: self.packet_limit,
            least,
        }
    }

    /// The greatest number of Prepares in flight at once: 1 to `MAX_IN_FLIGHT`.
    pub fn in_flight(&self) -> usize
        ensures { result ≡ self.now.in_flight }
    {
        self.in_flight
    }

    /// The greatest number of Prepares in all: 1 to `MAX_PACKETS`.
    pub fn packets(&self) -> u64
        ensures value { result ≡ self.now.packets }
        ensures few { result < 2147483648 }
    {
        self.packets
    }

    /// The packet limit at the start, in units of the sender's asset: 1 to `MAX_PACKET_LIMIT`.
    pub fn packet_limit(&self) -> u64
        ensures { result ≡ self.now.packet_limit }
    {
        self.packet_limit
    }

    /// The rate by which a packet's prepare amount is computed from its amount.
    pub fn least(&self) -> Rate
        ensures value { result ≡ self.now.least }
        ensures ratio { IsRatio result }
    {
        let _numbers = (self.least.num(), self.least.den());
        self.least
    }
}
