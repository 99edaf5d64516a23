//! The start of a run.

ghost use Rattle.std.specs.Prelude.{◌≡◌, length, IfErr, OnOk};
ghost use Rattle.st_world_quiet.specs.Worlds.{Met};
ghost use Rattle.st_world_quiet.specs.HopRounds.{Begins, BeginsEach, allows};
ghost use Rattle.st_world_quiet.specs.Plays.{input_of, money_of};
ghost use Rattle.st_world_quiet.specs.Playing.{IsStuck, OpensNone, Stops, bytes_of};

use crate::steps::{open, take};
use crate::stop::Stop;
use crate::writes::{NUMBERS, input_at, money_at, write_on};
use st_world::{Event, World};
use st_world_parts::Side;
use std::alloc::Allocator;

/// The server lets the money of each stream come.
pub(crate) fn allow_each<A: Allocator + Copy>(
    world: &mut World<A>,
    money: &[u64],
) -> Result<(), Stop>
    ensures met { OnOk result (Met world.old (allows (money_of money.now) 0 65) world.new) }
    ensures stops { IfErr result (λ e. Stops ⊥ ⊥ e world.old world.new) }
{
    for stream in 0..NUMBERS {
        let amount = money_at(money, stream);
        take(world, &Event::ReceiveMax(Side::Server, stream, amount))?;
    }
    Ok(())
}

/// The client opens a stream, which gets its money and its input.
fn begin<A: Allocator + Copy>(
    world: &mut World<A>,
    input: &[&[u8]],
    money: &[u64],
) -> Result<(), Stop>
    ensures begins { OnOk result (Begins (input_of (bytes_of input.now)) (money_of money.now) world.old world.new) }
    ensures stops { IfErr result (λ e. Stops (OpensNone world.old) ⊥ e world.old world.new) }
{
    let stream = open(world)?;
    let amount = money_at(money, stream);
    take(world, &Event::Offer(Side::Client, stream, amount))?;
    write_on(world, stream, input_at(input, stream))
}

/// The client opens a stream for each input.
pub(crate) fn begin_each<A: Allocator + Copy>(
    world: &mut World<A>,
    input: &[&[u8]],
    money: &[u64],
) -> Result<(), Stop>
    ensures begins { OnOk result (BeginsEach (input_of (bytes_of input.now)) (money_of money.now) (length input.now) world.old world.new) }
    ensures stops { IfErr result (λ e. Stops (IsStuck (input_of (bytes_of input.now)) (money_of money.now) (length input.now) world.old)
        ⊥ e world.old world.new) }
{
    for place in 0..input.len() {
        let _opened = place;
        begin(world, input, money)?;
    }
    Ok(())
}
