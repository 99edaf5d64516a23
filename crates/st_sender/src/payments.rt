//! The money of a packet.

ghost use Rattle.std.specs.Prelude.{[], ◌∷◌, ◌≡◌, ◌<◌, ◌≤◌, ◌^◌, ◌-◌, ◌*◌, length, min, IfOk, MatchOption};
ghost use Rattle.st_sender.specs.Allowed.{IsUnit, NoneUnit, least_for};
ghost use Rattle.st_sender.specs.Flights.{room_for};
ghost use Rattle.st_sender.specs.Paying.{Pays, all_payable, flown_money, flown_least, most_for};

use crate::bounds::Bounds;
use crate::load::{Flight, Payment};
use crate::sizes::unit_size;
use crate::stream::Stream;
use st_oer::Rate;
use std::alloc::{AllocError, Allocator};

/// The most bytes by which a payment makes a packet longer: its frame has at most 20 bytes, and the packet's amount and
/// its number of frames grow by at most 7 bytes each (RFC 0029, section 5.2; RFC 0030).
pub const PAYMENT_SIZE: usize = 34;
/// The most bytes of a packet without frames.
pub const EMPTY_SIZE: usize = 15;

/// `amount` less the stream's money in flight, at least 0.
pub fn without_money<A: Allocator + Copy>(flights: &[Flight<A>], number: u8, amount: u64) -> u64
    ensures { result ≡ amount - flown_money number flights.now }
{
    let mut rest = amount;
    for flight in flights {
        rest = rest.saturating_sub(flight.part(number));
    }
    rest
}

/// `amount` less the prepare amounts of the stream's money in flight, at least 0. `least` is the rate of the prepare
/// amount.
pub fn without_least<A: Allocator + Copy>(
    flights: &[Flight<A>],
    number: u8,
    least: Rate,
    amount: u64,
) -> u64
    ensures { result ≡ amount - flown_least least number flights.now }
{
    let mut rest = u128::from(amount);
    for flight in flights {
        rest = rest.saturating_sub(least.of(flight.part(number)));
    }
    rest as u64
}

/// The greatest amount that may be sent if `left` units are left of the peer's receive max: its prepare amount is at
/// most `left`, and if nothing is left it is 0. `least` is the rate of the prepare amount.
pub fn most_for(least: Rate, left: u64) -> u128
    ensures { result ≡ most_for least left }
{
    if left == 0 {
        return 0;
    }
    (u128::from(left) * u128::from(least.den()) + u128::from(least.den() - 1))
        / u128::from(least.num())
}

/// What has to be left of the peer's receive max to send an amount: its prepare amount, and a unit if the
/// amount is above 0. `least` is the rate of the prepare amount.
pub fn room_for(least: Rate, amount: u64) -> u128
    ensures { result ≡ room_for least amount }
{
    least.of(amount).max(u128::from(amount.min(1)))
}

/// The prepare amount of an amount that is sent (RFC 0029, section 5.2). `least` is its rate.
pub fn least_for(least: Rate, amount: u64) -> u64
    ensures { result ≡ least_for least amount }
{
    least.of(amount).min(u128::from(u64::MAX)) as u64
}

/// The money of all streams that one packet carries: at most `limit` units in all, and no more payments than fit in
/// `room` bytes. There is none in a room for one only if no money may be sent. `streams` has 65 places, one for each number
/// from 0 to 64. Fails if memory is refused.
pub fn payments<A: Allocator + Copy>(
    streams: &[Option<Stream<A>>],
    flights: &[Flight<A>],
    alloc: A,
    least: Rate,
    limit: u64,
    room: usize,
) -> Result<Vec<Payment, A>, AllocError>
    requires { length streams.now ≡ 65 }
    ensures pays { IfOk result (λ v. Pays streams.now least flights.now limit room 65 v.items) }
    ensures nothing { IfOk result (λ v. v.items ≡ [] → 34 ≤ room → min limit (all_payable streams.now least flights.now 65) ≡ 0) }
{
    let mut payments = Vec::new(alloc);
    let mut left = limit;
    for number in 0..65_u8 {
        let Some(stream) = &streams[number as usize] else {
            continue;
        };
        let amount = stream.payable(flights, number, least).min(left);
        if amount == 0 || room / PAYMENT_SIZE <= payments.len() {
            continue;
        }
        payments.push(Payment {
            stream: number,
            amount,
        })?;
        left -= amount;
    }
    Ok(payments)
}

/// One unit of money of the first stream that may send one, if the packet has room for no more. `None` if no
/// stream may, or if it does not fit.
pub fn unit<A: Allocator + Copy>(
    streams: &[Option<Stream<A>>],
    flights: &[Flight<A>],
    least: Rate,
    limit: u64,
    bounds: Bounds,
) -> Option<Payment>
    requires { length streams.now ≡ 65 }
    ensures { MatchOption result (NoneUnit streams.now flights.now least limit bounds 65) (λ p. IsUnit streams.now flights.now least limit bounds p) }
{
    if limit == 0 {
        return None;
    }
    let amount = least_for(least, 1);
    for number in 0..65_u8 {
        let Some(stream) = &streams[number as usize] else {
            continue;
        };
        if stream.payable(flights, number, least) == 0
            || bounds.room < unit_size(bounds.sequence, amount, number)
        {
            continue;
        }
        return Some(Payment {
            stream: number,
            amount: 1,
        });
    }
    None
}
