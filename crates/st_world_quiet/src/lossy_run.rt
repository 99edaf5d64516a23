//! A run in which some Sends are lost, played whole.

ghost use Rattle.std.specs.Prelude.{◌≡◌, ◌<◌, ◌≤◌, ◌+◌, ◌-◌, ◌^◌, true, false, length, map, IfErr, IfOk, OnOk};
ghost use Rattle.std.specs.Result.{IsErrAnd};
ghost use Rattle.st_world_parts.specs.State as state;
ghost use Rattle.st_world.specs.Left.{left_of};
ghost use Rattle.st_world_quiet.specs.Plays.{input_of, money_of};
ghost use Rattle.st_world_quiet.specs.LostWorlds.{are_lawful_lossy, course_at};
ghost use Rattle.st_world_quiet.specs.Playing.{Continues, Stops, bytes_of};
ghost use Rattle.st_world_quiet.specs.Fates.{DeliversIfItMayLose, IsBoundedIfItMayLose, IsEndlessAfterFated, IsMoreThanLost, IsNeededIfItMayLose, IsPlayedFated, IsStuckFated, all_lost, courses_of};

use crate::fate::Fate;
use crate::fated::go_fates;
use crate::fault::Fault;
use crate::most::{are_lawful, most_rounds};
use crate::opening::{allow_each, begin_each};
use crate::rounds::read_each;
use crate::run::is_unrecorded;
use crate::stop::Stop;
use st_world::{Trace, World};
use std::alloc::Allocator;
use std::marker::Model;

/// The result of a run in which some Sends were lost, the number of Prepares that the client sent, and how much the lost
/// answers carried, in units of the server's asset.
#[derive(Drop)]
pub struct LossyDelivery<A: Allocator + Copy> {
    trace: Trace<A>,
    sends: u64,
    carried: u64,
}

impl<A: Allocator + Copy> Model for LossyDelivery<A> {
    ghost use Rattle.std.specs.Coded.{codes};
    ghost use Rattle.std.specs.FinMap as map;
    ghost use Rattle.st_world_quiet.specs.Fates.{LossyOutcome};

    ghost Value = { LossyOutcome };

    ghost coded = { Prim.hlevel (codes, map.code) };

    ghost view = { λ a. record { trace = a.trace; sends = a.sends; carried = a.carried } };
}

impl<A: Allocator + Copy> LossyDelivery<A> {
    /// The result of the run. Does not allocate.
    pub fn trace(&self) -> &Trace<A>
        ensures { result.now ≡ self.now.trace }
    {
        &self.trace
    }

    /// The number of Prepares that the client sent, of those that were lost too. Does not allocate.
    pub fn sends(&self) -> u64
        ensures { result ≡ self.now.sends }
    {
        self.sends
    }

    /// How much the lost answers carried: what the server credited in addition to the money that the client paid. Does
    /// not allocate.
    pub fn carried(&self) -> u64
        ensures { result ≡ self.now.carried }
    {
        self.carried
    }
}

/// How many Sends are lost.
fn losses_of(fates: &[Fate]) -> u64
    ensures { all_lost fates.now < 2 ^ 64 → result ≡ all_lost fates.now }
{
    let mut lost: u64 = 0;
    for fate in fates {
        lost = lost.saturating_add(fate.lost());
    }
    lost
}

/// More Sends than the run has: those of a lossless run, and one more for each that is lost.
fn most_fated(input: &[&[u8]], money: &[u64], fates: &[Fate]) -> u64
    requires { length input.now ≤ 32 }
    ensures { IsMoreThanLost (bytes_of input.now) money.now fates.now result }
{
    most_rounds(input, money).saturating_add(losses_of(fates))
}

/// Whether there are 1 to 32 streams, with an amount and a receive max for each.
fn are_lawful_lossy(input: &[&[u8]], money: &[u64], receive_max: &[u64]) -> bool
    ensures { result ≡ are_lawful_lossy (bytes_of input.now) money.now receive_max.now }
{
    are_lawful(input, money) && receive_max.len() == input.len()
}

/// Plays a run of fewer Sends than `most`, and counts them and what lost answers carried.
fn play_fated<A: Allocator + Copy>(
    world: &mut World<A>,
    input: &[&[u8]],
    money: &[u64],
    receive_max: &[u64],
    fates: &[Fate],
    most: u64,
    sends: &mut u64,
    told: &mut u64,
) -> Result<(), Stop>
    requires none { sends.old ≡ 0 }
    requires nothing { told.old ≡ 0 }
    ensures played { OnOk result (IsPlayedFated (input_of (bytes_of input.now)) (money_of money.now) (money_of receive_max.now)
        (course_at (courses_of fates.now)) (length input.now) (length world.old.nodes) sends.new told.new world.old world.new) }
    ensures stops { IfErr result (λ e. Stops
        (IsStuckFated (input_of (bytes_of input.now)) (money_of money.now) (money_of receive_max.now) (length input.now) world.old)
        (IsEndlessAfterFated (input_of (bytes_of input.now)) (money_of money.now) (money_of receive_max.now)
        (course_at (courses_of fates.now)) (length input.now) (length world.old.nodes) most world.old) e world.old world.new) }
{
    let hops = world.trace().hops();
    allow_each(world, receive_max)?;
    begin_each(world, input, money)?;
    go_fates(world, fates, hops, most, sends, told)?;
    read_each(world)
}

/// Plays a run with 1 to 32 streams, and an amount and a receive max for each.
fn play_lawful_fated<A: Allocator + Copy>(
    mut world: World<A>,
    input: &[&[u8]],
    money: &[u64],
    receive_max: &[u64],
    fates: &[Fate],
) -> Result<LossyDelivery<A>, (Fault, Trace<A>)>
    requires { are_lawful_lossy (bytes_of input.now) money.now receive_max.now ≡ true }
    ensures only_memory { IfErr result (λ e. e.0 ≡ Fault.NoMemory) }
    ensures run { IfOk result (λ q. (w : state.World) × Continues world w × (q.trace ≡ left_of w)) }
    ensures part { IfErr result (λ e. (w : state.World) × Continues world w × (e.1 ≡ left_of w)) }
    ensures delivered { IfOk result (λ q. DeliversIfItMayLose (bytes_of input.now) money.now receive_max.now fates.now world q) }
    ensures bounded { IfOk result (λ q. IsBoundedIfItMayLose (bytes_of input.now) money.now receive_max.now fates.now world q) }
    ensures sharper { IfOk result (λ q. IsNeededIfItMayLose (bytes_of input.now) money.now receive_max.now fates.now world q) }
{
    let most = most_fated(input, money, fates);
    let mut sends = 0;
    let mut told = 0;
    let ended = play_fated(
        &mut world,
        input,
        money,
        receive_max,
        fates,
        most,
        &mut sends,
        &mut told,
    );
    let trace = world.into_trace();
    if is_unrecorded(&ended) {
        return Err((Fault::NoMemory, trace));
    }
    Ok(LossyDelivery {
        trace,
        sends,
        carried: told,
    })
}

/// Plays a run like `quiet` in which some Sends are lost: one of `fates` for each Send of the client, in order. Later
/// Sends are delivered. A hop or the client that waits for an answer that is lost meets a fault. Before the first Send
/// the server raises the receive max of each stream to that of `receive_max`, and the client opens the streams, offers
/// and writes. Of each stream at most 262,144 bytes are written, and nothing after the first Send.
///
/// Fails with `BadInput` unless there are 1 to 32 streams, with an amount and a receive max for each, and with
/// `NoMemory` as `quiet` does. Otherwise, under the premises of `MayPlayLossy` (specs/LostWorlds.antt), all was delivered. The run
/// has no more Sends than a lossless one and one more for each that is lost. The server's credit is exactly the money and
/// what the lost answers carried.
pub fn lossy<A: Allocator + Copy>(
    world: World<A>,
    input: &[&[u8]],
    money: &[u64],
    receive_max: &[u64],
    fates: &[Fate],
) -> Result<LossyDelivery<A>, (Fault, Trace<A>)>
    ensures bad_input { are_lawful_lossy (bytes_of input.now) money.now receive_max.now ≡ false
        → IsErrAnd result (λ e. (e.0 ≡ Fault.BadInput) × (e.1 ≡ left_of world)) }
    ensures only_memory { are_lawful_lossy (bytes_of input.now) money.now receive_max.now ≡ true → IfErr result (λ e. e.0 ≡ Fault.NoMemory) }
    ensures run { IfOk result (λ q. (w : state.World) × Continues world w × (q.trace ≡ left_of w)) }
    ensures part { IfErr result (λ e. (w : state.World) × Continues world w × (e.1 ≡ left_of w)) }
    ensures delivered { IfOk result (λ q. DeliversIfItMayLose (bytes_of input.now) money.now receive_max.now fates.now world q) }
    ensures bounded { IfOk result (λ q. IsBoundedIfItMayLose (bytes_of input.now) money.now receive_max.now fates.now world q) }
    ensures sharper { IfOk result (λ q. IsNeededIfItMayLose (bytes_of input.now) money.now receive_max.now fates.now world q) }
{
    if are_lawful_lossy(input, money, receive_max) {
        return play_lawful_fated(world, input, money, receive_max, fates);
    }
    Err((Fault::BadInput, world.into_trace()))
}
