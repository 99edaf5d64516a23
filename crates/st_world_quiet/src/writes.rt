//! Writes of the input, as much as is accepted.

ghost use Rattle.std.specs.Prelude.{◌≡◌, ◌+◌, ◌-◌, ◌<◌, ◌^◌, length, take, drop, IfErr, OnOk};
ghost use Rattle.st_world_parts.specs.Sides.{Client};
ghost use Rattle.st_world_parts.specs.State.{log_at};
ghost use Rattle.st_world_quiet.specs.Worlds.{Met};
ghost use Rattle.st_world_quiet.specs.HopRounds.{writes};
ghost use Rattle.st_world_quiet.specs.Plays.{input_of, money_of};
ghost use Rattle.st_world_quiet.specs.Playing.{Stops, WritesAll, bytes_of};

use crate::steps::take;
use crate::stop::Stop;
use st_world::{Event, World};
use st_world_parts::Side;
use std::alloc::Allocator;

/// How many bytes of a stream may wait to be acknowledged.
const ROOM: usize = 262_144;

/// A stream's number is below this one.
pub(crate) const NUMBERS: u8 = 65;

/// The input of a stream; empty if it has none.
pub(crate) fn input_at<'a>(input: &[&'a [u8]], stream: u8) -> &'a [u8]
    ensures { result.now ≡ input_of (bytes_of input.now) stream }
{
    if stream % 2 != 1 {
        return &[];
    }
    let place = usize::from(stream / 2);
    if place < input.len() {
        return input[place];
    }
    &[]
}

/// The money of a stream: 0 if it has none.
pub(crate) fn money_at(money: &[u64], stream: u8) -> u64
    ensures { result ≡ money_of money.now stream }
{
    if stream % 2 != 1 {
        return 0;
    }
    let place = usize::from(stream / 2);
    if place < money.len() {
        return money[place];
    }
    0
}

/// How many bytes of a stream of the client were written and read.
fn progress<A: Allocator + Copy>(world: &World<A>, stream: u8) -> (usize, usize)
    ensures written { result.0 ≡ length (log_at world.now Client stream).written }
    ensures read { result.1 ≡ length (log_at world.now Client stream).read }
{
    match world.trace().ledger(Side::Client, stream) {
        Some(ledger) => (ledger.written().len(), ledger.read().len()),
        None => (0, 0),
    }
}

/// As much of the rest of an input as fits, where `written` bytes were written and `read` bytes read.
fn fitting(input: &[u8], written: usize, read: usize) -> &[u8]
    ensures { result.now ≡ take (read + 262144 - written) (drop written input.now) }
{
    if written >= input.len() {
        return &[];
    }
    let rest = &input[written..];
    let room = read.saturating_add(ROOM).saturating_sub(written);
    &rest[..room.min(rest.len())]
}

/// Writes on a stream what fits of its input, and closes it at the input's end. Both are left out if the stream is not
/// open: they would be refused, and change nothing.
pub(crate) fn write_on<A: Allocator + Copy>(
    world: &mut World<A>,
    stream: u8,
    input: &[u8],
) -> Result<(), Stop>
    ensures met { OnOk result (Met world.old (writes input.now stream (log_at world.old Client stream)) world.new) }
    ensures stops { IfErr result (λ e. Stops ⊥ ⊥ e world.old world.new) }
{
    if !world.has_stream(Side::Client, stream) {
        return Ok(());
    }
    let (written, read) = progress(world, stream);
    let piece = fitting(input, written, read);
    take(world, &Event::Write(Side::Client, stream, piece))?;
    if written + piece.len() != input.len() {
        return Ok(());
    }
    take(world, &Event::Close(Side::Client, stream))
}

/// Writes on every stream.
pub(crate) fn write_each<A: Allocator + Copy>(
    world: &mut World<A>,
    input: &[&[u8]],
) -> Result<(), Stop>
    ensures writes { OnOk result (WritesAll (input_of (bytes_of input.now)) world.old world.new) }
    ensures stops { IfErr result (λ e. Stops ⊥ ⊥ e world.old world.new) }
{
    for stream in 0..NUMBERS {
        write_on(world, stream, input_at(input, stream))?;
    }
    Ok(())
}
