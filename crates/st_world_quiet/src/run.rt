//! A lossless run, played whole.

ghost use Rattle.std.specs.Prelude.{◌≡◌, ◌<◌, ◌+◌, ℕ, true, false, length, IfErr, IfOk, OnOk};
ghost use Rattle.std.specs.Result.{IsErrAnd};
ghost use Rattle.st_world_parts.specs.State as state;
ghost use Rattle.st_world.specs.Left.{left_of};
ghost use Rattle.st_world_quiet.specs.Plays.{are_lawful, input_of, money_of};
ghost use Rattle.st_world_quiet.specs.Playing.{Continues, IsEndlessAfter, IsPlayed, IsStuckAfter, Stops, bytes_of};
ghost use Rattle.st_world_quiet.specs.Promised.{DeliversIfItMay, IsBoundedIfItMay, IsNeededIfItMay, is_unrecorded};

use crate::fault::Fault;
use crate::most::{are_lawful, most_rounds};
use crate::opening::{allow_each, begin_each};
use crate::rounds::{go_rounds, read_each};
use crate::stop::Stop;
use st_world::{Trace, World};
use std::alloc::Allocator;
use std::marker::Model;

/// The result of a lossless run, and the number of Prepares that the client sent.
#[derive(Drop)]
pub struct Delivery<A: Allocator + Copy> {
    trace: Trace<A>,
    sends: u64,
}

impl<A: Allocator + Copy> Model for Delivery<A> {
    ghost use Rattle.std.specs.Coded.{codes};
    ghost use Rattle.std.specs.FinMap as map;
    ghost use Rattle.st_world_quiet.specs.Playing.{Outcome};

    ghost Value = { Outcome };

    ghost coded = { Prim.hlevel (codes, map.code) };

    ghost view = { λ a. record { trace = a.trace; sends = a.sends } };
}

impl<A: Allocator + Copy> Delivery<A> {
    /// The result of the run. Does not allocate.
    pub fn trace(&self) -> &Trace<A>
        ensures { result.now ≡ self.now.trace }
    {
        &self.trace
    }

    /// The number of Prepares that the client sent. Does not allocate.
    pub fn sends(&self) -> u64
        ensures { result ≡ self.now.sends }
    {
        self.sends
    }
}

/// Plays a run of fewer rounds than `most`, and counts its Sends.
fn play<A: Allocator + Copy>(
    world: &mut World<A>,
    input: &[&[u8]],
    money: &[u64],
    most: u64,
    sends: &mut u64,
) -> Result<(), Stop>
    requires { sends.old ≡ 0 }
    ensures played { OnOk result (IsPlayed (input_of (bytes_of input.now)) (money_of money.now) (length input.now) (length world.old.nodes)
        sends.new world.old world.new) }
    ensures stops { IfErr result (λ e. Stops (IsStuckAfter (input_of (bytes_of input.now)) (money_of money.now) (length input.now) world.old)
        (IsEndlessAfter (input_of (bytes_of input.now)) (money_of money.now) (length input.now) (length world.old.nodes) most world.old)
        e world.old world.new) }
{
    let hops = world.trace().hops();
    allow_each(world, money)?;
    begin_each(world, input, money)?;
    go_rounds(world, input, hops, most, sends)?;
    read_each(world)
}

/// Whether the world could not record an event.
pub(crate) fn is_unrecorded(ended: &Result<(), Stop>) -> bool
    ensures { result ≡ is_unrecorded ended.now }
{
    matches!(ended, Err(Stop::NoMemory))
}

/// Plays a lossless run with 1 to 32 streams and an amount for each.
fn play_lawful<A: Allocator + Copy>(
    mut world: World<A>,
    input: &[&[u8]],
    money: &[u64],
) -> Result<Delivery<A>, (Fault, Trace<A>)>
    requires { are_lawful (bytes_of input.now) money.now ≡ true }
    ensures only_memory { IfErr result (λ e. e.0 ≡ Fault.NoMemory) }
    ensures run { IfOk result (λ q. (w : state.World) × Continues world w × (q.trace ≡ left_of w)) }
    ensures part { IfErr result (λ e. (w : state.World) × Continues world w × (e.1 ≡ left_of w)) }
    ensures delivered { IfOk result (λ q. DeliversIfItMay (bytes_of input.now) money.now world q) }
    ensures bounded { IfOk result (λ q. IsBoundedIfItMay (bytes_of input.now) money.now world q) }
    ensures sharper { IfOk result (λ q. IsNeededIfItMay (bytes_of input.now) money.now world q) }
{
    let most = most_rounds(input, money);
    let mut sends = 0;
    let ended = play(&mut world, input, money, most, &mut sends);
    let trace = world.into_trace();
    if is_unrecorded(&ended) {
        return Err((Fault::NoMemory, trace));
    }
    Ok(Delivery { trace, sends })
}

/// The run that `Quiet::quiet` plays.
pub(crate) fn quiet<A: Allocator + Copy>(
    world: World<A>,
    input: &[&[u8]],
    money: &[u64],
) -> Result<Delivery<A>, (Fault, Trace<A>)>
    ensures bad_input { are_lawful (bytes_of input.now) money.now ≡ false → IsErrAnd result (λ e. (e.0 ≡ Fault.BadInput) × (e.1 ≡ left_of world)) }
    ensures only_memory { are_lawful (bytes_of input.now) money.now ≡ true → IfErr result (λ e. e.0 ≡ Fault.NoMemory) }
    ensures run { IfOk result (λ q. (w : state.World) × Continues world w × (q.trace ≡ left_of w)) }
    ensures part { IfErr result (λ e. (w : state.World) × Continues world w × (e.1 ≡ left_of w)) }
    ensures delivered { IfOk result (λ q. DeliversIfItMay (bytes_of input.now) money.now world q) }
    ensures bounded { IfOk result (λ q. IsBoundedIfItMay (bytes_of input.now) money.now world q) }
    ensures sharper { IfOk result (λ q. IsNeededIfItMay (bytes_of input.now) money.now world q) }
{
    if are_lawful(input, money) {
        return play_lawful(world, input, money);
    }
    Err((Fault::BadInput, world.into_trace()))
}
