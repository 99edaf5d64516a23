//! Rounds: a Prepare and its answer over all hops, then reads and writes.

ghost use Rattle.std.specs.Prelude.{◌≡◌, suc, ◌+◌, ◌<◌, ◌^◌, [], ◌∷◌, MatchBool, IfErr, IfOk, OnOk};
ghost use Rattle.st_world_parts.specs.Sides.{Server};
ghost use Rattle.st_world_parts.specs.Events.{Read};
ghost use Rattle.st_world_quiet.specs.Worlds.{Met, going_over, passing};
ghost use Rattle.st_world_quiet.specs.HopRounds.{reads};
ghost use Rattle.st_world_quiet.specs.Plays.{input_of};
ghost use Rattle.st_world_quiet.specs.Playing.{GoesOn, IsEndless, IsOver, NumberedRounds, SendsNone, Stops, bytes_of, read_limit};

use crate::steps::{send, take};
use crate::stop::Stop;
use crate::writes::{NUMBERS, write_each};
use st_ilp::Moment;
use st_world::{Event, World};
use st_world_parts::{Side, Way};
use std::alloc::Allocator;

/// How many bytes are read at once: more than one Prepare brings.
const READ_LIMIT: usize = 65_536;

/// A Prepare is sent over a link and over `hops` hops after it, and its answer returns to the first of them.
fn go_over<A: Allocator + Copy>(
    world: &mut World<A>,
    link: usize,
    hops: usize,
    which: usize,
    now: Moment,
) -> Result<(), Stop>
    requires { link + hops < 2 ^ 64 }
    ensures met { OnOk result (Met world.old (going_over link hops which now) world.new) }
    ensures stops { IfErr result (λ e. Stops ⊥ ⊥ e world.old world.new) }
{
    take(world, &Event::Arrive(link, Way::ToServer, which, now))?;
    if hops == 0 {
        return Ok(());
    }
    go_over(world, link + 1, hops - 1, which, now)?;
    take(
        world,
        &Event::AnswerArrives(link + 1, Way::ToServer, which, now),
    )
}

/// A Prepare crosses all hops, and its answer returns over all of them.
fn pass<A: Allocator + Copy>(
    world: &mut World<A>,
    hops: usize,
    which: usize,
    now: Moment,
) -> Result<(), Stop>
    ensures met { OnOk result (Met world.old (passing hops which now) world.new) }
    ensures stops { IfErr result (λ e. Stops ⊥ ⊥ e world.old world.new) }
{
    go_over(world, 0, hops, which, now)?;
    take(world, &Event::AnswerArrives(0, Way::ToServer, which, now))
}

/// A read of a stream at the server. It is left out if the stream is not open there: it would be refused, and change
/// nothing.
fn read_on<A: Allocator + Copy>(world: &mut World<A>, stream: u8) -> Result<(), Stop>
    ensures met { OnOk result (Met world.old (Read Server stream read_limit ∷ []) world.new) }
    ensures stops { IfErr result (λ e. Stops ⊥ ⊥ e world.old world.new) }
{
    if !world.has_stream(Side::Server, stream) {
        return Ok(());
    }
    take(world, &Event::Read(Side::Server, stream, READ_LIMIT))
}

/// A read of each stream at the server.
pub(crate) fn read_each<A: Allocator + Copy>(world: &mut World<A>) -> Result<(), Stop>
    ensures met { OnOk result (Met world.old (reads read_limit 0 65) world.new) }
    ensures stops { IfErr result (λ e. Stops ⊥ ⊥ e world.old world.new) }
{
    for stream in 0..NUMBERS {
        read_on(world, stream)?;
    }
    Ok(())
}

/// One round, after a given number of Sends. Gives whether a Prepare was sent.
fn go_round<A: Allocator + Copy>(
    world: &mut World<A>,
    input: &[&[u8]],
    hops: usize,
    sends: &mut u64,
) -> Result<bool, Stop>
    requires { sends.old + 1 < 2 ^ 64 }
    ensures round { IfOk result (λ went. MatchBool went (GoesOn (input_of (bytes_of input.now)) hops sends.old sends.new world.old world.new)
        (IsOver sends.old sends.new world.old world.new)) }
    ensures stops { IfErr result (λ e. Stops ⊥ ⊥ e world.old world.new) }
{
    let now = Moment::new(0).unwrap();
    let number = *sends + 1;
    if !send(world, number, now)? {
        return Ok(false);
    }
    *sends = number;
    pass(world, hops, number as usize, now)?;
    read_each(world)?;
    write_each(world, input)?;
    Ok(true)
}

/// Rounds until no Prepare is sent, but fewer than `most`. `sends` counts them.
pub(crate) fn go_rounds<A: Allocator + Copy>(
    world: &mut World<A>,
    input: &[&[u8]],
    hops: usize,
    most: u64,
    sends: &mut u64,
) -> Result<(), Stop>
    requires { sends.old ≡ 0 }
    ensures rounds { OnOk result (NumberedRounds (input_of (bytes_of input.now)) hops 0 sends.new world.old world.new) }
    ensures none { OnOk result (SendsNone world.new world.new) }
    ensures stops { IfErr result (λ e. Stops ⊥ (IsEndless (input_of (bytes_of input.now)) hops most world.old) e world.old world.new) }
{
    while *sends < most {
        if !go_round(world, input, hops, sends)? {
            return Ok(());
        }
    }
    Err(Stop::Endless)
}
