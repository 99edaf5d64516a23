//! Sends one after the other, each with its fate.

ghost use Rattle.std.specs.Prelude.{◌≡◌, ◌-◌, ◌+◌, ◌<◌, ◌^◌, MatchBool, IfErr, IfOk, OnOk};
ghost use Rattle.st_world_parts.specs.Sides.{Server};
ghost use Rattle.st_world_parts.specs.State.{end_at};
ghost use Rattle.st_world_quiet.specs.LostWorlds.{course_at};
ghost use Rattle.st_world_quiet.specs.Playing.{IsOver, SendsNone, Stops};
ghost use Rattle.st_world_quiet.specs.Fates.{GoesOnFated, HasPlayed, IsEndlessFated, carried_with, courses_of};

use crate::fate::{Fate, fate_at};
use crate::following::follow;
use crate::rounds::read_each;
use crate::steps::send;
use crate::stop::Stop;
use st_ilp::Moment;
use st_world::World;
use st_world_parts::Side;
use std::alloc::Allocator;

/// The server's credit.
fn credit<A: Allocator + Copy>(world: &World<A>) -> u64
    ensures { result ≡ (end_at world.now Server).receiving.credit }
{
    world.trace().end(Side::Server).totals().credited
}

/// What a Send's answer carried, if it was lost: by how much the server's credit rose.
fn carried(fate: Fate, before: u64, after: u64) -> u64
    ensures { result ≡ carried_with fate before after }
{
    match fate {
        Fate::Delivered | Fate::PrepareLost(_) => 0,
        Fate::AnswerLost(_) => after.saturating_sub(before),
    }
}

/// A Send after `sends` others, what becomes of it, and a read of each stream. Gives whether a Prepare was sent, and
/// sets how much its answer carried if that was lost.
fn go_fated<A: Allocator + Copy>(
    world: &mut World<A>,
    fates: &[Fate],
    hops: usize,
    sends: &mut u64,
    one: &mut u64,
) -> Result<bool, Stop>
    requires { sends.old + 1 < 2 ^ 64 }
    ensures round { IfOk result (λ went. MatchBool went
        (GoesOnFated (course_at (courses_of fates.now)) hops sends.old sends.new one.new world.old world.new)
        (IsOver sends.old sends.new world.old world.new)) }
    ensures stops { IfErr result (λ e. Stops ⊥ ⊥ e world.old world.new) }
{
    let now = Moment::new(0).unwrap();
    let number = *sends + 1;
    let before = credit(world);
    if !send(world, number, now)? {
        return Ok(false);
    }
    follow(world, fates, hops, *sends as usize, now)?;
    read_each(world)?;
    let fate = fate_at(fates, *sends as usize);
    let after = credit(world);
    *one = carried(fate, before, after);
    *sends = number;
    Ok(true)
}

/// Sends until no Prepare is sent, but fewer than `most`. `sends` counts them, and `told` what lost answers carried.
pub(crate) fn go_fates<A: Allocator + Copy>(
    world: &mut World<A>,
    fates: &[Fate],
    hops: usize,
    most: u64,
    sends: &mut u64,
    told: &mut u64,
) -> Result<(), Stop>
    requires none { sends.old ≡ 0 }
    requires nothing { told.old ≡ 0 }
    ensures played { OnOk result (HasPlayed (course_at (courses_of fates.now)) hops sends.new told.new world.old world.new) }
    ensures none { OnOk result (SendsNone world.new world.new) }
    ensures stops { IfErr result (λ e. Stops ⊥ (IsEndlessFated (course_at (courses_of fates.now)) hops most world.old) e world.old world.new) }
{
    while *sends < most {
        let mut one: u64 = 0;
        if !go_fated(world, fates, hops, sends, &mut one)? {
            return Ok(());
        }
        *told = told.saturating_add(one);
    }
    Err(Stop::Endless)
}
