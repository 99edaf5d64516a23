//! The lossless run as a method of a world.

ghost use Rattle.std.specs.Prelude.{◌≡◌, ◌+◌, ℕ, true, false, IfErr, IfOk};
ghost use Rattle.std.specs.Result.{IsErrAnd};
ghost use Rattle.st_world_parts.specs.State as state;
ghost use Rattle.st_world.specs.Left.{left_of};
ghost use Rattle.st_world_quiet.specs.Plays.{are_lawful};
ghost use Rattle.st_world_quiet.specs.Playing.{Continues, bytes_of};
ghost use Rattle.st_world_quiet.specs.Promised.{DeliversIfItMay, IsBoundedIfItMay, IsNeededIfItMay};

use crate::fault::Fault;
use crate::run::{Delivery, quiet};
use st_world::{Trace, World};
use std::alloc::Allocator;

/// The lossless run of a world as its method: `world.quiet(input, money)`.
pub trait Quiet<A: Allocator + Copy>: Sized {
    // The world that is played.
    ghost world: { Self → state.World };

    /// Plays a lossless run of a world in which nothing has happened, with the bytes `input` and the amount `money` of each
    /// stream, in units of the client's asset. The server raises the receive max of each stream to its amount. The client
    /// opens the streams, offers and writes. Then, at moment 0, the client sends a Prepare with its number as IV, which is
    /// forwarded over all hops; the answer is sent back; the server reads all there is; and the client writes on, until
    /// nothing is left to send. A last read of each stream gives its end.
    ///
    /// Fails with `BadInput` unless there are 1 to 32 streams and as many amounts. Fails with `NoMemory` if the world could
    /// not record an event; the trace is then that of the events before it. If a call ran out of memory, the run ends
    /// there, and its trace says so. Otherwise, under the premises of `MayPlay` (specs/Plays.antt), all was delivered, by no
    /// more Prepares than the bound.
    fn quiet(self, input: &[&[u8]], money: &[u64]) -> Result<Delivery<A>, (Fault, Trace<A>)>
        ensures bad_input { are_lawful (bytes_of input.now) money.now ≡ false → IsErrAnd result (λ e. (e.0 ≡ Fault.BadInput) × (e.1 ≡ left_of (world self))) }
        ensures only_memory { are_lawful (bytes_of input.now) money.now ≡ true → IfErr result (λ e. e.0 ≡ Fault.NoMemory) }
        ensures run { IfOk result (λ q. (w : state.World) × Continues (world self) w × (q.trace ≡ left_of w)) }
        ensures part { IfErr result (λ e. (w : state.World) × Continues (world self) w × (e.1 ≡ left_of w)) }
        ensures delivered { IfOk result (λ q. DeliversIfItMay (bytes_of input.now) money.now (world self) q) }
        ensures bounded { IfOk result (λ q. IsBoundedIfItMay (bytes_of input.now) money.now (world self) q) }
        ensures sharper { IfOk result (λ q. IsNeededIfItMay (bytes_of input.now) money.now (world self) q) };
}

impl<A: Allocator + Copy> Quiet<A> for World<A> {
    ghost world = { λ w. w };

    fn quiet(self, input: &[&[u8]], money: &[u64]) -> Result<Delivery<A>, (Fault, Trace<A>)> {
        quiet(self, input, money)
    }
}
