//! The events of a run, each with the result that it should have.

ghost use Rattle.std.specs.Prelude.{◌≡◌, [], ◌∷◌, MatchBool, IfErr, IfOk, OnOk, Ok};
ghost use Rattle.st_world_parts.specs.Sides.{Client};
ghost use Rattle.st_world_parts.specs.Events as events;
ghost use Rattle.st_world.specs.Steps.{Step};
ghost use Rattle.st_world_parts.specs.Seen.{told_seen};
ghost use Rattle.st_world.specs.Seen.{event_seen};
ghost use Rattle.st_world_quiet.specs.Worlds.{Met};
ghost use Rattle.st_world_quiet.specs.Playing.{OpensNone, Sends, SendsNone, Stops, Tells, is_sent, iv_of, opened_in};

use crate::stop::Stop;
use st_ilp::Moment;
use st_world::{Event, World};
use st_world_parts::{Side, Told};
use std::alloc::Allocator;

/// Plays one event, and gives its report.
fn meet<A: Allocator + Copy>(world: &mut World<A>, event: &Event<'_>) -> Result<Told<A>, Stop>
    ensures met { IfOk result (λ told. Tells (event_seen event.now) (told_seen told) world.old world.new) }
    ensures stops { IfErr result (λ e. Stops ⊥ ⊥ e world.old world.new) }
{
    let Ok(told) = world.step(event) else {
        return Err(Stop::NoMemory);
    };
    if world.trace().refused() {
        return Err(Stop::Refused);
    }
    Ok(told)
}

/// Plays one event, whatever it reports.
pub(crate) fn take<A: Allocator + Copy>(world: &mut World<A>, event: &Event<'_>) -> Result<(), Stop>
    ensures met { OnOk result (Met world.old (event_seen event.now ∷ []) world.new) }
    ensures stops { IfErr result (λ e. Stops ⊥ ⊥ e world.old world.new) }
{
    let told = meet(world, event)?;
    drop(told);
    Ok(())
}

/// Whether a Prepare was sent.
fn is_sent<A: Allocator + Copy>(told: &Told<A>) -> bool
    ensures { result ≡ is_sent (told_seen told.now) }
{
    matches!(told, Told::Sent)
}

/// The number of this Send, as an IV that no other has.
fn iv_of(number: u64) -> [u8; 12]
    ensures { result ≡ iv_of number }
{
    let mut iv = [0; 12];
    iv[4..].copy_from_slice(&number.to_be_bytes());
    iv
}

/// The client sends, and this is the Send's number. Gives whether a Prepare was sent.
pub(crate) fn send<A: Allocator + Copy>(
    world: &mut World<A>,
    number: u64,
    now: Moment,
) -> Result<bool, Stop>
    ensures sent { IfOk result (λ sent. MatchBool sent (Sends number now world.old world.new) (SendsNone world.old world.new)) }
    ensures stops { IfErr result (λ e. Stops ⊥ ⊥ e world.old world.new) }
{
    let told = meet(world, &Event::Send(Side::Client, iv_of(number), now))?;
    let sent = is_sent(&told);
    drop(told);
    Ok(sent)
}

/// The stream that was opened.
fn opened<A: Allocator + Copy>(told: &Told<A>) -> Option<u8>
    ensures { result ≡ opened_in (told_seen told.now) }
{
    match told {
        Told::Opened(Ok(stream)) => Some(*stream),
        _ => None,
    }
}

/// The client opens its next stream.
pub(crate) fn open<A: Allocator + Copy>(world: &mut World<A>) -> Result<u8, Stop>
    ensures opened { IfOk result (λ stream. Step world.old (events.OpenStream Client) (events.Opened (Ok stream)) world.new) }
    ensures stops { IfErr result (λ e. Stops (OpensNone world.old) ⊥ e world.old world.new) }
{
    let told = meet(world, &Event::OpenStream(Side::Client))?;
    let stream = opened(&told);
    drop(told);
    match stream {
        Some(stream) => Ok(stream),
        None => Err(Stop::NoStream),
    }
}
